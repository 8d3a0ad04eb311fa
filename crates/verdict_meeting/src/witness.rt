// The witness: the way of a cell, followed back by its moves and written as a chain.
ghost use Rattle.std.specs.Prelude.{pred, ◌+◌, ◌*◌, ◌<◌, ◌≤◌, ◌≡◌, ◌∷◌, ◌++◌, length, drop, get_or};
ghost use Rattle.tables.specs.Limits.{step_limit, word_limit};
ghost use Rattle.tables.specs.Words.{steps};
ghost use Rattle.conflict.specs.Meeting.{meeting_of};
ghost use Rattle.conflict.specs.Crossing.{chain};
ghost use Rattle.verdict_meeting.specs.Cells.{cell_at};
ghost use Rattle.verdict_meeting.specs.Tracing.{read_after, update_after, left, Traceable};

use crate::fill::cell_at;
use tables::words::byte;
use verdict_landing::landing_at;

// The move at the nearest label of the way of i and j.
fn move_at(p: &[u16], i: usize, j: usize, moves: &[u8]) -> usize
    requires { (steps p.now ≤ step_limit) × (i < step_limit) × (j < step_limit) }
    ensures { result ≡ get_or moves.now (cell_at (steps p.now) i j) 0 }
{
    let n = p.len() / 2;
    byte(moves, cell_at(n, i, j))
}

// The read's state above a move.
#[tactic(auto, unfolding(crate::specs::Tracing::read_after, verdict_landing::specs::Landing::pick))]
fn read_after(i: usize, m: usize) -> usize
    ensures { result ≡ read_after i m }
{
    if m == 0 || m == 1 {
        return i.saturating_sub(1);
    }
    i
}

// The update's state above a move.
fn update_after(j: usize, m: usize) -> usize
    ensures { result ≡ update_after j m }
{
    if m == 1 {
        return j;
    }
    j.saturating_sub(1)
}

// Writes node k of a chain: its parent is the node before it.
fn put(out: &mut [u16], k: usize, l: u16)
    requires { (2 * k + 2 ≤ length out.old) × (k < word_limit) }
    ensures { drop (2 * k) out.new ≡ pred k ∷ l ∷ drop (2 * (k + 1)) out.old }
{
    out[2 * k] = k.saturating_sub(1) as u16;
    out[2 * k + 1] = l;
}

// Writes the way of i and j, of n labels, as a chain at the front of the output; all behind it stays.
pub(crate) fn trace(
    r: &[u16],
    below: bool,
    p: &[u16],
    under: bool,
    n: usize,
    i: usize,
    j: usize,
    moves: &[u8],
    out: &mut [u16],
)
    requires { Traceable r.now below p.now under n i j moves.now out.old }
    ensures { out.new ≡ chain (left n (meeting_of r.now below p.now under i j)) ++ drop (2 * n) out.old }
{
    let mut a = i;
    let mut b = j;
    for rest in (0..n).rev() {
        let m = move_at(p, a, b, moves);
        put(out, rest, landing_at(r, p, a, b, m));
        a = read_after(a, m);
        b = update_after(b, m);
    }
}
