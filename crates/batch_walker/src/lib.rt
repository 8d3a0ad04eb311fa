// The frame walker: it keeps the lent batch and its own place, and gives one frame after another.
#![tactic(auto)]

ghost use Rattle.std.specs.Prelude.{◌≡◌};
ghost use Rattle.batch_walk.specs.Walking.{step_at, place_after, number_after, part_at};

use batch_walk::{frame_part, number_after, place_after, step};
use outcomes::frames::Extent;
use tables::refusal::Refusal;

// The lent batch, the place of the next frame in it, and that frame's number.
#[derive(Clone, Copy)]
pub struct Walker<'a> {
    pub batch: &'a [u16],
    pub at: usize,
    pub number: usize,
}

impl<'a> Walker<'a> {
    // A walker at the front of the batch.
    pub fn new(b: &'a [u16]) -> Walker<'a>
        ensures { (result.batch ≡ b.entry) × ((result.at ≡ 0) × (result.number ≡ 0)) }
    {
        Walker {
            batch: b,
            at: 0,
            number: 0,
        }
    }

    // The frame at its place, its refusal, or that none is left.
    pub fn next(self) -> Result<Option<Extent>, Refusal>
        ensures { result ≡ step_at self.entry.batch.now self.entry.number self.entry.at }
    {
        step(self.batch, self.number, self.at)
    }

    // Exactly the part of the lent batch where that frame stands.
    pub fn part(self) -> &'a [u16]
        ensures { result.now ≡ part_at self.entry.batch.now self.entry.number self.entry.at }
    {
        frame_part(self.batch, self.number, self.at)
    }

    // The walker behind that frame; the same walker where none is given.
    pub fn moved(self) -> Walker<'a>
        ensures { (result.batch ≡ self.entry.batch) × ((result.at ≡ place_after self.entry.batch.now self.entry.number self.entry.at) × (result.number ≡ number_after self.entry.batch.now self.entry.number self.entry.at)) }
    {
        Walker {
            batch: self.batch,
            at: place_after(self.batch, self.number, self.at),
            number: number_after(self.batch, self.number, self.at),
        }
    }
}
