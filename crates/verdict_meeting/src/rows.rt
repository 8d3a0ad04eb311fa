// The rows, one after the other, and the nearest of the marked states.
ghost use Rattle.std.specs.Prelude.{◌+◌, ◌≤◌, ◌≡◌, cond, length};
ghost use Rattle.tables.specs.Words.{steps};
ghost use Rattle.conflict.specs.Meeting.{sooner};
ghost use Rattle.verdict_meeting.specs.Cells.{cell_at, RowHeld, MovesHeld};
ghost use Rattle.verdict_meeting.specs.Met.{marked_way};
ghost use Rattle.verdict_meeting.specs.Nearing.{Near, Asked};

use crate::fill::fill_row;
use crate::moves::is_sooner;
use tables::words::{byte, word};

// A state, and how many labels its way has, 0 for none.
#[derive(Clone, Copy)]
pub(crate) struct Best {
    pub(crate) number: usize,
    pub(crate) state: usize,
}

// How many labels the way of i and j has, none where i is not marked; the row of i is filled.
fn candidate(
    r: &[u16],
    below: bool,
    p: &[u16],
    under: bool,
    states: &[u8],
    j: usize,
    i: usize,
    row: &[u16],
) -> usize
    requires row_held { RowHeld r.now below p.now under (i + 1) 0 0 row.now }
    requires asked { Asked r.now p.now j }
    ensures { result ≡ length (marked_way r.now below p.now under states.now j i) }
{
    if byte(states, i) == 1 {
        return word(row, j);
    }
    0
}

// The best so far where it is sooner than state i, of `own` labels; else that one.
fn nearer(best: Best, own: usize, i: usize) -> Best
    ensures { (result.number ≡ cond (sooner best.number own) best.number own) × (result.state ≡ cond (sooner best.number own) best.state i) }
{
    if is_sooner(best.number, own) {
        return best;
    }
    Best {
        number: own,
        state: i,
    }
}

// Fills every row; of the marked states that of the shortest way to column j, of equally short ones the least.
pub(crate) fn nearest_state(
    r: &[u16],
    below: bool,
    p: &[u16],
    under: bool,
    states: &[u8],
    j: usize,
    row: &mut [u16],
    moves: &mut [u8],
) -> Best
    requires asked { Asked r.now p.now j }
    requires p_in_bounds { steps p.now ≤ length row.old }
    ensures { Near r.now below p.now under states.now j (steps r.now) result.state result.number × MovesHeld r.now below p.now under (cell_at (steps p.now) (steps r.now) 0) moves.new }
{
    let m = r.len() / 2;
    let mut best = Best {
        number: 0,
        state: 0,
    };
    for i in 0..m {
        fill_row(r, below, p, under, i, row, moves);
        let own = candidate(r, below, p, under, states, j, i, row);
        best = nearer(best, own, i);
    }
    best
}
