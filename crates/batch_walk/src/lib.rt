// What stands at a place of a batch, frame after frame: thin functions over the reading of a frame.
#![tactic(auto)]

ghost use Rattle.std.specs.Prelude.{◌≡◌};
ghost use Rattle.batch_frame.specs.Frames.{frame_at};
ghost use Rattle.batch_walk.specs.Walking.{answer_of, step_at, place_after, number_after, part_at};

use batch_frame::read_frame;
use outcomes::frames::Extent;
use tables::limits::BATCH_LIMIT;
use tables::refusal::{Reason, Refusal};

// The frame at a place within the batch, or its refusal.
fn framed(b: &[u16], n: usize, at: usize) -> Result<Option<Extent>, Refusal>
    ensures { result ≡ answer_of (frame_at b.now n at) }
{
    let f = read_frame(b, n, at)?;
    Ok(Some(f))
}

// What stands at a place of the batch, as frame n: the words first, then the frame.
pub fn step(b: &[u16], n: usize, at: usize) -> Result<Option<Extent>, Refusal>
    ensures { result ≡ step_at b.now n at }
{
    if BATCH_LIMIT < b.len() {
        return Err(Refusal {
            reason: Reason::Batch,
            table: 6,
            place: BATCH_LIMIT,
        });
    }
    if b.len() <= at {
        return Ok(None);
    }
    framed(b, n, at)
}

// The place behind the frame; the same place where none is given.
#[tactic(auto, unfolding(crate::specs::Walking::place_after))]
pub fn place_after(b: &[u16], n: usize, at: usize) -> usize
    ensures { result ≡ place_after b.now n at }
{
    match step(b, n, at) {
        Ok(Some(f)) => f.next,
        _ => at,
    }
}

// The number behind the frame's; the same number where none is given.
#[tactic(auto, unfolding(crate::specs::Walking::number_after))]
pub fn number_after(b: &[u16], n: usize, at: usize) -> usize
    ensures { result ≡ number_after b.now n at }
{
    match step(b, n, at) {
        Ok(Some(_)) => n + 1,
        _ => n,
    }
}

// The part of the batch where the frame stands; an empty part where none is given.
#[tactic(auto, unfolding(crate::specs::Walking::place_after, crate::specs::Walking::part_at))]
pub fn frame_part(b: &[u16], n: usize, at: usize) -> &[u16]
    ensures { result.now ≡ part_at b.now n at }
{
    match step(b, n, at) {
        Ok(Some(f)) => &b[at..f.next],
        _ => &b[0..0],
    }
}
