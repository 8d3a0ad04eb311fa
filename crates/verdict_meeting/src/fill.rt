// A row of cells: their numbers worked in place, their moves stored behind those of the rows before.
ghost use Rattle.std.specs.Prelude.{◌+◌, ◌<◌, ◌≤◌, ◌≡◌, length, set};
ghost use Rattle.tables.specs.Limits.{step_limit, word_limit};
ghost use Rattle.tables.specs.Words.{steps};
ghost use Rattle.check_verdict.specs.Admitted.{Bounded};
ghost use Rattle.verdict_meeting.specs.Cells.{cell_at, RowHeld, MovesHeld, Next};

use crate::numbers::cell_of;
use tables::words::word;

// Where the move of the cell of i and j stands, in rows of n.
pub(crate) fn cell_at(n: usize, i: usize, j: usize) -> usize
    requires { (n ≤ step_limit) × (i < step_limit) × (j < step_limit) }
    ensures { result ≡ cell_at n i j }
{
    n * i + j
}

// Stores a move, where there is room for it.
fn store_move(moves: &mut [u8], k: usize, m: u8)
    ensures { moves.new ≡ set moves.old k m }
{
    if moves.len() <= k {
        return;
    }
    moves[k] = m;
}

// Writes a number into the row.
fn store_number(row: &mut [u16], j: usize, x: usize)
    requires { (x < word_limit) × (j < length row.old) }
    ensures { row.new ≡ set row.old j x }
{
    row[j] = x as u16;
}

// Fills the cell of i and j, in the row whose moves begin at `start`; the number that it had in the row before is in hand then.
fn fill_cell(
    r: &[u16],
    below: bool,
    p: &[u16],
    under: bool,
    i: usize,
    j: usize,
    start: usize,
    corner: usize,
    row: &mut [u16],
    moves: &mut [u8],
) -> usize
    requires next { Next r.now below p.now under i j corner row.old }
    requires start_value { start ≡ cell_at (steps p.now) i 0 }
    requires moves_held { MovesHeld r.now below p.now under (cell_at (steps p.now) i j) moves.old }
    ensures { RowHeld r.now below p.now under i (j + 1) result row.new × MovesHeld r.now below p.now under (cell_at (steps p.now) i (j + 1)) moves.new }
{
    let low = word(row, j);
    let cell = cell_of(r, below, p, under, i, j, corner, row);
    store_number(row, j, cell.number);
    store_move(moves, start + j, cell.step);
    low
}

// Fills the row of state i.
pub(crate) fn fill_row(
    r: &[u16],
    below: bool,
    p: &[u16],
    under: bool,
    i: usize,
    row: &mut [u16],
    moves: &mut [u8],
)
    requires bounded { Bounded r.now p.now × (i < steps r.now) }
    requires row_held { RowHeld r.now below p.now under i 0 0 row.old }
    requires moves_held { MovesHeld r.now below p.now under (cell_at (steps p.now) i 0) moves.old }
    ensures { RowHeld r.now below p.now under (i + 1) 0 0 row.new × MovesHeld r.now below p.now under (cell_at (steps p.now) (i + 1) 0) moves.new }
{
    let n = p.len() / 2;
    let start = cell_at(n, i, 0);
    let mut corner = 0;
    for j in 0..n {
        corner = fill_cell(r, below, p, under, i, j, start, corner, row, moves);
    }
}
