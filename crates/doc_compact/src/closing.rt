// Closing up a document: one pass over the used nodes, in place.
ghost use Rattle.std.specs.Prelude.{◌≤◌, length};
ghost use Rattle.tables.specs.Documents.{doc};
ghost use Rattle.doc_compact.specs.Closing.{Movable, Moved, Closable, Closed, ClosedUp};

use outcomes::updates::Compacted;
use tables::limits::USED_LIMIT;
use tables::words::first_word;

// Node v goes to number m, its parent to the new number that stands in `places`; a removed one goes nowhere. The next new number.
fn moved(
    rows: &mut [u16],
    marks: &mut [u8],
    ids: &mut [u32],
    places: &[u16],
    v: usize,
    m: usize,
) -> usize
    requires { Movable rows.old marks.old ids.old places.now v m }
    ensures { Moved places.now v m rows.old marks.old ids.old rows.new marks.new ids.new result }
{
    if marks[v] != 0 {
        return m;
    }
    let above = places[first_word(rows, v)];
    let label = rows[2 * v + 1];
    let id = ids[v];
    rows[2 * m] = above;
    rows[2 * m + 1] = label;
    marks[m] = 0;
    ids[m] = id;
    m + 1
}

// Every node in rising number, so each parent before its children: `places` takes its new number, and it goes there. How many stay.
fn close(
    rows: &mut [u16],
    marks: &mut [u8],
    used: usize,
    ids: &mut [u32],
    places: &mut [u16],
) -> usize
    requires { Closable (doc rows.old marks.old used) ids.old × (used ≤ length places.old) }
    ensures { Closed (doc rows.old marks.old used) ids.old rows.new marks.new ids.new result }
{
    let mut m: usize = 0;
    for v in 0..used {
        places[v] = m as u16;
        m = moved(rows, marks, ids, places, v, m);
    }
    m
}

// All of it: the new used count, and how many nodes were dropped.
pub(crate) fn closed_up(
    rows: &mut [u16],
    marks: &mut [u8],
    used: usize,
    ids: &mut [u32],
) -> Compacted
    requires { Closable (doc rows.old marks.old used) ids.old }
    ensures { ClosedUp (doc rows.old marks.old used) ids.old rows.new marks.new ids.new result }
{
    let mut places = [0u16; USED_LIMIT];
    let n = close(rows, marks, used, ids, &mut places);
    Compacted {
        used: n,
        dropped: used - n,
    }
}
