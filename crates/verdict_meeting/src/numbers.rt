// The number of a cell and its move, from the numbers of the cells before it.
ghost use Rattle.std.specs.Prelude.{◌<◌, ◌≡◌, cond};
ghost use Rattle.tables.specs.Limits.{word_limit};
ghost use Rattle.tables.specs.Words.{label};
ghost use Rattle.selection.specs.Ways.{stays};
ghost use Rattle.conflict.specs.Meeting.{agree, least, fewest_of};
ghost use Rattle.verdict_meeting.specs.Cells.{together, alone, choose, move_of, Next};

use crate::moves::{agreeing, is_sooner, least_of, one_more};
use pattern_step::stays;
use tables::words::{second_word, word};

// A cell: how many labels the shortest way to it has, 0 for none, and the move at the nearest of them: 0, both land; 1, the read lands;
// 2, the update lands.
#[derive(Clone, Copy)]
pub(crate) struct Cell {
    pub(crate) number: usize,
    pub(crate) step: u8,
}

// How many labels where both land at the nearest: one more than the n of the states before.
fn both_land(r: &[u16], p: &[u16], i: usize, j: usize, n: usize) -> usize
    requires { 0 < i → 0 < j → n < word_limit }
    ensures { result ≡ together (agree (label r.now i) (label p.now j)) i j n }
{
    let may = agreeing(second_word(r, i), second_word(p, j));
    if i == 0 {
        if j == 0 {
            return usize::from(may);
        }
        return 0;
    }
    if j == 0 {
        return 0;
    }
    one_more(may, n)
}

// How many where the step of state i lands and the other pattern stays in state j.
fn lands_alone(other: &[u16], below: bool, j: usize, i: usize, n: usize) -> usize
    requires { 0 < i → n < word_limit }
    ensures { result ≡ alone (stays other.now below j) i n }
{
    if i == 0 {
        return 0;
    }
    one_more(stays(other, below, j), n)
}

// The least of the three, and its move.
fn chosen(both: usize, read: usize, update: usize) -> Cell
    ensures { (result.number ≡ least both (least read update)) × (result.step ≡ choose both read update) }
{
    if is_sooner(both, least_of(read, update)) {
        return Cell {
            number: both,
            step: 0,
        };
    }
    if is_sooner(read, update) {
        return Cell {
            number: read,
            step: 1,
        };
    }
    Cell {
        number: update,
        step: 2,
    }
}

// The cell of i and j, by the row that is worked in place and the number in hand.
pub(crate) fn cell_of(
    r: &[u16],
    below: bool,
    p: &[u16],
    under: bool,
    i: usize,
    j: usize,
    corner: usize,
    row: &[u16],
) -> Cell
    requires { Next r.now below p.now under i j corner row.now }
    ensures { (result.number ≡ fewest_of r.now below p.now under i j) × (result.step ≡ move_of r.now below p.now under i j) }
{
    let low = word(row, j);
    let both = both_land(r, p, i, j, corner);
    let read = lands_alone(p, under, j, i, low);
    let update = lands_alone(r, below, i, j, word(row, j.saturating_sub(1)));
    chosen(both, read, update)
}
