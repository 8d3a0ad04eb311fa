// One copy of a tree into the free rest of a document, under a node of it.
#![tactic(auto)]

ghost use Rattle.std.specs.Prelude.{◌+◌, ◌*◌, ◌/◌, ◌%◌, ◌≤◌, ◌≡◌, ◌++◌, leb, length, drop};
ghost use Rattle.tables.specs.Limits.{used_limit, word_limit};
ghost use Rattle.tables.specs.Words.{nodes};
ghost use Rattle.tables.specs.Documents.{doc, capacity};
ghost use Rattle.selection.specs.Lists.{tab};
ghost use Rattle.selection.specs.Operations.{copied_parent, copy_words};
ghost use Rattle.doc_copy.specs.Copying.{held, copied, Copyable};

use tables::limits::{USED_LIMIT, WORD_LIMIT};
use tables::words::first_word;

// The parent word of node k of a copy: its root hangs under q, every other node under the copy of its parent.
fn hung(x: &[u16], q: usize, base: usize, k: usize) -> u16
    requires { base ≤ used_limit }
    ensures { result ≡ copied_parent x.now q base k % word_limit }
{
    let above = first_word(x, k);
    if k == 0 {
        return (q % WORD_LIMIT) as u16;
    }
    ((base + above) % WORD_LIMIT) as u16
}

// The copier: the words of a copy of x under q, behind `base` nodes, at the front of the free words.
fn copier(x: &[u16], q: usize, base: usize, free: &mut [u16])
    requires { Copyable x.now base free.old }
    ensures { free.new ≡ held (copy_words x.now q base (nodes x.now)) ++ drop (2 * nodes x.now) free.old }
{
    let n = x.len() / 2;
    for k in 0..n {
        let own = 2 * k;
        free[own] = hung(x, q, base, k);
        free[own + 1] = x[own + 1];
    }
}

// The first n marks are 0.
fn present(n: usize, marks: &mut [u8])
    requires { n ≤ length marks.old }
    ensures { marks.new ≡ tab (λ _. 0) n ++ drop n marks.old }
{
    marks[..n].fill(0);
}

// Whether n nodes more fit behind the `at` nodes already there.
fn has_room(at: usize, n: usize, words: usize, marks: usize) -> bool
    ensures { result ≡ leb (at + n) (capacity words marks) }
{
    if USED_LIMIT < at {
        return false;
    }
    if USED_LIMIT - at < n {
        return false;
    }
    if words / 2 < at + n {
        return false;
    }
    if marks < at + n {
        return false;
    }
    true
}

// One copy of x under q, behind the `at` nodes already there: the free rest of the tables is lent. The new used count; where the copy does not
// fit, nothing changes.
pub fn grafted(x: &[u16], q: usize, at: usize, rows: &mut [u16], marks: &mut [u8]) -> usize
    ensures { doc rows.new marks.new result ≡ copied x.now q (doc rows.old marks.old at) }
{
    let n = x.len() / 2;
    if !has_room(at, n, rows.len(), marks.len()) {
        return at;
    }
    copier(x, q, at, &mut rows[2 * at..]);
    present(n, &mut marks[at..]);
    at + n
}
