// The labels of the innermost open elements: a row of a fixed length, in which level k stands at k modulo that length.
ghost use Rattle.std.specs.Prelude.{suc, ◌-◌, ◌<◌, ◌≤◌, ◌≡◌, length, get_or, take};
ghost use Rattle.tables.specs.Limits.{word_limit};
ghost use Rattle.text_xml_form.specs.Scan.{standing, stage_on, number_on, depth_on};
ghost use Rattle.text_xml_in.specs.Levels.{held_levels, held_at, Held, noted, low_on, Recallable, Byte, Scans};

use crate::stage::{depth_on, number_on, stage_on};
use tables::words::{byte, word};

// How many levels are held at once: more than an accepted tree has, so that none is scanned twice.
pub(crate) const HELD_LEVELS: usize = 4096;

// The label of the innermost of d open elements, where it is held.
pub(crate) fn innermost(row: &[u16], d: usize) -> usize
    ensures { result ≡ get_or row.now (held_at (d - 1)) 0 }
{
    word(row, d.saturating_sub(1) % HELD_LEVELS)
}

// Behind a byte at depth d: a start tag's label is noted, if it will still be held at depth e.
fn note(q: usize, v: usize, c: usize, d: usize, e: usize, row: &mut [u16])
    requires { (v < word_limit) × (length row.old ≡ held_levels) }
    ensures { row.new ≡ noted q v c d e row.old }
{
    if c != 62 {
        return;
    }
    if q != 2 {
        return;
    }
    if e <= d {
        return;
    }
    if HELD_LEVELS < e - d {
        return;
    }
    row[d % HELD_LEVELS] = v as u16;
}

// The lowest level held behind a byte that opens an element.
fn low_on(q: usize, d: usize, low: usize) -> usize
    requires { low ≤ d }
    ensures { result ≡ low_on q d low }
{
    if q != 2 {
        return low;
    }
    if d - low == HELD_LEVELS {
        return low + 1;
    }
    low
}

// All levels that can be held at depth d, from the start of the text on: it is right as far as i.
fn recall(s: &[u8], i: usize, d: usize, row: &mut [u16])
    requires { Recallable s.now i d row.old }
    ensures { Held row.new (d - held_levels) (standing (take i s.now)).opened }
{
    let mut q = 0;
    let mut v = 0;
    let mut e = 0;
    for j in 0..i {
        let c = byte(s, j);
        note(q, v, c, e, d, row);
        e = depth_on(s, q, c, e);
        v = number_on(v, c);
        q = stage_on(q, c);
    }
}

// Before an end tag, at its slash: where the innermost level is no longer held, the text is gone through again.
fn hold_innermost(s: &[u8], i: usize, q: usize, d: usize, low: usize, row: &mut [u16]) -> usize
    requires recallable { Recallable s.now i d row.old }
    requires held { Held row.old low (standing (take i s.now)).opened }
    ensures { Held row.new result (standing (take i s.now)).opened × (q ≡ 1 → 0 < d → result < d) }
{
    if q != 1 {
        return low;
    }
    if low < d {
        return low;
    }
    recall(s, i, d, row);
    d.saturating_sub(HELD_LEVELS)
}

// One byte on, which goes on: the lowest level that is held.
pub(crate) fn hold(
    s: &[u8],
    i: usize,
    q: usize,
    v: usize,
    c: usize,
    d: usize,
    low: usize,
    row: &mut [u16],
) -> usize
    requires scans { Scans s.now i q v d low row.old }
    requires byte { Byte s.now i q v c d row.old }
    ensures { Scans s.now (suc i) (stage_on q c) (number_on v c) (depth_on q c d) result row.new }
{
    if c == 62 {
        note(q, v, c, d, d + 1, row);
        return low_on(q, d, low);
    }
    if c == 47 {
        return hold_innermost(s, i, q, d, low, row);
    }
    low
}
