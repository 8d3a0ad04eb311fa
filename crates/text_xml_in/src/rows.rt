// The rows of a right text.
ghost use Rattle.std.specs.Prelude.{◌+◌, ◌*◌, ◌<◌, ◌≡◌, ◌++◌, length, set, drop};
ghost use Rattle.tables.specs.Limits.{word_limit};
ghost use Rattle.text_xml_form.specs.Rows.{has_row, rows_of, slashes as slashesOf};
ghost use Rattle.text_xml_in.specs.Rows.{put_on, count_on, inside_on, Puttable, Fillable};

use crate::stage::{number_on, stage_on};
use tables::words::{byte, first_word};

// How many slashes a text has: each element has one.
pub(crate) fn slashes(s: &[u8]) -> usize
    ensures { result ≡ slashesOf s.now }
{
    let n = s.len();
    let mut k = 0;
    for i in 0..n {
        k += usize::from(byte(s, i) == 47);
    }
    k
}

// Row k: a node's parent and its label.
fn put_row(words: &mut [u16], k: usize, u: usize, v: usize)
    requires { (2 * k + 1 < length words.old) × (u < word_limit) × (v < word_limit) }
    ensures { words.new ≡ set (set words.old (2 * k) u) (2 * k + 1) v }
{
    words[2 * k] = u as u16;
    words[2 * k + 1] = v as u16;
}

// A byte ends a start tag or a short tag.
#[tactic(auto, unfolding(text_xml_form::specs::Rows::has_row))]
fn has_row(q: usize, c: usize) -> bool
    ensures { result ≡ has_row q c }
{
    c == 62 && (q == 2 || q == 3)
}

// Behind a byte that ends such a tag row k is put; how many there are.
fn put_on(q: usize, v: usize, c: usize, u: usize, k: usize, words: &mut [u16]) -> usize
    requires { Puttable q v c u k words.old }
    ensures { (result ≡ count_on q c k) × (words.new ≡ put_on q v c u k words.old) }
{
    if !has_row(q, c) {
        return k;
    }
    put_row(words, k, u, v);
    k + 1
}

// The innermost open node behind a byte: an end tag's node is closed, and its parent is the innermost.
fn inside_on(q: usize, c: usize, u: usize, k: usize, words: &[u16]) -> usize
    ensures { result ≡ inside_on q c u k words.now }
{
    if c != 62 {
        return u;
    }
    if q == 2 {
        return k;
    }
    if q == 5 {
        return first_word(words, u);
    }
    u
}

// All rows, into a table that has room for them.
pub(crate) fn fill(s: &[u8], words: &mut [u16])
    requires { Fillable s.now words.old }
    ensures { words.new ≡ rows_of s.now ++ drop (length (rows_of s.now)) words.old }
{
    let n = s.len();
    let mut q = 0;
    let mut v = 0;
    let mut u = 0;
    let mut k = 0;
    for i in 0..n {
        let c = byte(s, i);
        let inside = inside_on(q, c, u, k, words);
        k = put_on(q, v, c, u, k, words);
        u = inside;
        v = number_on(v, c);
        q = stage_on(q, c);
    }
}
