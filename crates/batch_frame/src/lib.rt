// One frame of a batch, read where it stands: the place of a refusal is decided here.
#![tactic(auto)]

ghost use Rattle.std.specs.Prelude.{◌≡◌, ◌+◌, ◌<◌, length};
ghost use Rattle.tables.specs.Checks.{◌then◌};
ghost use Rattle.batch_parts.specs.Parts.{steps_check};
ghost use Rattle.batch_frame.specs.Frames.{kind_right, rest_check, frame_check, frame_of, frame_at};

use batch_parts::{nodes_checked, steps_checked};
use outcomes::frames::Extent;
use tables::limits::FRAME_LIMIT;
use tables::refusal::{Reason, Refusal, refused};
use tables::words::word;

// What stands behind the steps of a frame of kind k.
fn rest_checked(b: &[u16], k: usize, at: usize) -> Result<(), Refusal>
    requires { at < length b.now }
    ensures { result ≡ rest_check b.now k at }
{
    let steps = word(b, at + 1);
    if k == 2 {
        return nodes_checked(b, at + 2 + 2 * steps);
    }
    if k != 3 {
        return Ok(());
    }
    if steps <= 1 {
        return refused(Reason::OneStep, 6, at + 1);
    }
    Ok(())
}

fn kind_right(k: usize) -> bool
    ensures { result ≡ kind_right k }
{
    if k == 1 {
        return true;
    }
    if k == 2 {
        return true;
    }
    k == 3
}

// The steps of a frame, and what stands behind them.
fn body_checked(b: &[u16], k: usize, at: usize) -> Result<(), Refusal>
    requires { at < length b.now }
    ensures { result ≡ (steps_check b.now (at + 1) then rest_check b.now k at) }
{
    steps_checked(b, at + 1)?;
    rest_checked(b, k, at)
}

// The checks of frame n at a place.
fn frame_checked(b: &[u16], n: usize, at: usize) -> Result<(), Refusal>
    ensures { result ≡ frame_check b.now n at }
{
    if FRAME_LIMIT <= n {
        return refused(Reason::Batch, 6, at);
    }
    let k = word(b, at);
    if !kind_right(k) {
        return refused(Reason::Kind, 6, at);
    }
    body_checked(b, k, at)
}

// The frame at a place where one stands.
fn frame_of(b: &[u16], at: usize) -> Extent
    requires { at < length b.now }
    ensures { result ≡ frame_of b.now at }
{
    let kind = word(b, at);
    let steps = word(b, at + 1);
    let end = at + 2 + 2 * steps;
    if kind != 2 {
        return Extent {
            kind,
            from: at + 2,
            steps,
            nodes: 0,
            next: end,
        };
    }
    let nodes = word(b, end);
    Extent {
        kind,
        from: at + 2,
        steps,
        nodes,
        next: end + 1 + 2 * nodes,
    }
}

// Frame n at a place of the batch, or its refusal.
pub fn read_frame(b: &[u16], n: usize, at: usize) -> Result<Extent, Refusal>
    ensures { result ≡ frame_at b.now n at }
{
    frame_checked(b, n, at)?;
    Ok(frame_of(b, at))
}
