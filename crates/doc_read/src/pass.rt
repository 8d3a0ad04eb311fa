// The pass over the nodes with one word of steps: each behind its parent, its set and then its answer.
ghost use Rattle.std.specs.Prelude.{◌<◌, ◌≡◌, ◌&&◌, cond, eqb, length};
ghost use Rattle.selection.specs.Lists.{somewhere};
ghost use Rattle.pattern_set.specs.Sets.{bit, next_set, word_steps, Word};
ghost use Rattle.doc_read.specs.Standing.{set_above, enters, Passable, Passed, Placed};

use crate::nodes::{byte_at, carried_above, label_at, set_above};
use crate::wanted::wanted_word;
use pattern_masks::{agreeing, staying};
use pattern_set::next;

// The word of v by the steps that agree with its label: on the root only the pattern's first step lands.
fn set_of(
    agreeing: u64,
    staying: u64,
    from: usize,
    rows: &[u16],
    v: usize,
    carry: &[u8],
    sets: &[u64],
    near: u64,
) -> u64
    requires { Placed rows.now v sets.now near × (v < length carry.now) }
    ensures { Word (next_set (bit agreeing) (bit staying) (enters from rows.now carry.now v) (bit (set_above rows.now sets.now v))) 0 result }
{
    if v == 0 {
        return next(0, agreeing, staying, from == 0);
    }
    let first = carried_above(from, rows, v, carry);
    next(set_above(rows, v, sets, near), agreeing, staying, first)
}

// Whether some step is in both words.
fn meets(own: u64, wanted: u64) -> bool
    ensures { result ≡ somewhere (λ i. bit own i && bit wanted i) word_steps }
{
    own & wanted != 0
}

// A node is shown where it is present and a wanted step stands there; else its byte stays.
fn shown(mark: u8, before: u8, own: u64, wanted: u64) -> u8
    ensures { result ≡ cond (eqb mark 0 && somewhere (λ i. bit own i && bit wanted i) word_steps) 1 before }
{
    if mark != 0 {
        return before;
    }
    if meets(own, wanted) {
        return 1;
    }
    before
}

// One word of every used node's set, and in the row 1 where it has a wanted step and the node is present.
pub(crate) fn passed(
    p: &[u16],
    from: usize,
    wanted: &[u8],
    low: &[u64],
    high: &[u64],
    rows: &[u16],
    marks: &[u8],
    used: usize,
    carry: &[u8],
    sets: &mut [u64],
    row: &mut [u8],
)
    requires { Passable p.now from wanted.now low.now high.now rows.now marks.now used carry.now sets.old row.old }
    ensures { Passed p.now from wanted.now rows.now marks.now used row.old sets.new row.new }
{
    let staying = staying(p, from);
    let word = wanted_word(p, from, wanted);
    let mut own = 0;
    for v in 0..used {
        let agreeing = agreeing(low, high, label_at(rows, v));
        own = set_of(agreeing, staying, from, rows, v, carry, sets, own);
        sets[v] = own;
        row[v] = shown(byte_at(marks, v), row[v], own, word);
    }
}
