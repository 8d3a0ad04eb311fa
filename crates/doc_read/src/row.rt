// The row of a reading, one word of steps after another.
ghost use Rattle.std.specs.Prelude.{◌≤◌, ◌≡◌, ◌++◌, length, drop, get_or};
ghost use mir.Val.{bool_byte};
ghost use Rattle.tables.specs.Documents.{doc};
ghost use Rattle.selection.specs.Lists.{tab};
ghost use Rattle.pattern_set.specs.Sets.{bit};
ghost use Rattle.doc_read.specs.Wanted.{wanted_row};
ghost use Rattle.doc_read.specs.Standing.{Readable, Carrying, Passed};

use crate::nodes::set_at;
use crate::pass::passed;
use pattern_masks::{SLOTS, noted, wildcards};
use pattern_set::{WORD_STEPS, has};
use tables::limits::USED_LIMIT;

// The bytes of the used nodes are 0.
fn cleared(used: usize, row: &mut [u8])
    requires { used ≤ length row.old }
    ensures { row.new ≡ tab (λ v. 0) used ++ drop used row.old }
{
    row[..used].fill(0);
}

// Each used node's carry: whether the last step of its word stands there.
fn carry_over(used: usize, sets: &[u64], carry: &mut [u8])
    requires { (used ≤ length sets.now) × (used ≤ length carry.old) }
    ensures { carry.new ≡ tab (λ v. bool_byte (bit (get_or sets.now v 0) 63)) used ++ drop used carry.old }
{
    for v in 0..used {
        carry[v] = has(set_at(sets, v), WORD_STEPS - 1) as u8;
    }
}

// One word: the pattern's masks from the step `from` on, then one pass over the nodes.
fn word_read(
    p: &[u16],
    from: usize,
    wanted: &[u8],
    rows: &[u16],
    marks: &[u8],
    used: usize,
    carry: &[u8],
    sets: &mut [u64],
    row: &mut [u8],
)
    requires { Carrying p.now from wanted.now rows.now marks.now used carry.now sets.old row.old }
    ensures { Passed p.now from wanted.now rows.now marks.now used row.old sets.new row.new }
{
    let wild = wildcards(p, from);
    let mut low = [wild; SLOTS];
    let mut high = [wild; SLOTS];
    noted(p, from, false, &mut low);
    noted(p, from, true, &mut high);
    passed(
        p, from, wanted, &low, &high, rows, marks, used, carry, sets, row,
    );
}

// The row of a reading that meets no refusal: the first word of steps, and while there are more steps the next, each with what the word before carries.
pub(crate) fn filled(
    p: &[u16],
    wanted: &[u8],
    rows: &[u16],
    marks: &[u8],
    used: usize,
    row: &mut [u8],
)
    requires { Readable p.now rows.now marks.now used row.old }
    ensures { row.new ≡ wanted_row p.now wanted.now (doc rows.now marks.now used) row.old }
{
    cleared(used, row);
    let n = p.len() / 2;
    let mut sets = [0u64; USED_LIMIT];
    let mut carry = [0u8; USED_LIMIT];
    let mut from = 0;
    loop {
        word_read(p, from, wanted, rows, marks, used, &carry, &mut sets, row);
        from += WORD_STEPS;
        if n <= from {
            return;
        }
        carry_over(used, &sets, &mut carry);
    }
}
