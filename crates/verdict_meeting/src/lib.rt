// The shortest way on which a read and an update meet, counted and written.
#![tactic(auto)]

mod fill;
mod moves;
mod numbers;
mod rows;
mod witness;

ghost use Rattle.std.specs.Prelude.{◌*◌, ◌<◌, ◌≤◌, ◌≡◌, cond, [], ltb, length};
ghost use Rattle.tables.specs.Limits.{step_limit};
ghost use Rattle.tables.specs.Words.{steps};
ghost use Rattle.check_verdict.specs.Admitted.{Bounded};
ghost use Rattle.check_verdict.specs.Order.{patterns_check, needed};
ghost use Rattle.verdict_meeting.specs.Met.{nearest, met, Met};
ghost use Rattle.verdict_meeting.specs.Nearing.{Asked, Lent};

use crate::rows::nearest_state;
use crate::witness::trace;
use check_verdict::patterns_check;
use tables::limits::STEP_LIMIT;

// Pairs of states: few enough for a small table of moves, and at most.
const SMALL_CELLS: usize = 4096;

const CELLS: usize = STEP_LIMIT * STEP_LIMIT;

// The shortest way over the marked states to state j of the update, by a row of its own and moves that are lent; written where there is
// room for the longest.
fn write_nearest(
    r: &[u16],
    below: bool,
    p: &[u16],
    under: bool,
    states: &[u8],
    j: usize,
    moves: &mut [u8],
    out: &mut [u16],
) -> usize
    requires asked { Asked r.now p.now j }
    requires lent { Lent r.now p.now (length moves.old) out.old }
    ensures { Met r.now p.now (nearest r.now below p.now under states.now j (steps r.now)) out.old out.new result }
{
    let mut row = [0u16; STEP_LIMIT];
    let best = nearest_state(r, below, p, under, states, j, &mut row, moves);
    let number = best.number;
    if out.len() < 2 * (r.len() / 2 + p.len() / 2 - 1) {
        return number;
    }
    trace(r, below, p, under, number, best.state, j, moves, out);
    number
}

// By a table of N moves: enough where the way is written; where it is counted only, N may be 0.
fn write_with<const N: usize>(
    r: &[u16],
    below: bool,
    p: &[u16],
    under: bool,
    states: &[u8],
    j: usize,
    out: &mut [u16],
) -> usize
    requires asked { Asked r.now p.now j }
    requires lent { Lent r.now p.now N out.old }
    requires most { N ≤ step_limit * step_limit }
    ensures { Met r.now p.now (nearest r.now below p.now under states.now j (steps r.now)) out.old out.new result }
{
    let mut moves = [0u8; N];
    write_nearest(r, below, p, under, states, j, &mut moves, out)
}

// The same of admitted patterns, with as many moves as are wanted; none where j is no state of p.
fn shortest(
    r: &[u16],
    below: bool,
    p: &[u16],
    under: bool,
    states: &[u8],
    j: usize,
    out: &mut [u16],
) -> usize
    requires { Bounded r.now p.now }
    ensures { Met r.now p.now (cond (ltb j (steps p.now)) (nearest r.now below p.now under states.now j (steps r.now)) []) out.old out.new result }
{
    let m = r.len() / 2;
    let n = p.len() / 2;
    if n <= j {
        return 0;
    }
    if out.len() < 2 * (m + n - 1) {
        return write_with::<0>(r, below, p, under, states, j, out);
    }
    if n * m <= SMALL_CELLS {
        return write_with::<SMALL_CELLS>(r, below, p, under, states, j, out);
    }
    write_with::<CELLS>(r, below, p, under, states, j, out)
}

// The shortest way on which both run, the read in a state that is marked by a 1 and the update in state j; each flag says whether anything
// below the pattern's last step counts too. How many labels it has, 0 for none; and its chain at the front of an output with room for the
// longest, nothing in a shorter one. None where a pattern is refused and where j is no state of the update.
pub fn meet(
    r: &[u16],
    below: bool,
    p: &[u16],
    under: bool,
    states: &[u8],
    j: usize,
    out: &mut [u16],
) -> usize
    ensures { Met r.now p.now (met (patterns_check r.now p.now) (ltb j (steps p.now)) (nearest r.now below p.now under states.now j (steps r.now))) out.old out.new result }
{
    match patterns_check(r, p) {
        Ok(()) => shortest(r, below, p, under, states, j, out),
        Err(_) => 0,
    }
}
