// A frame that takes all words from its place on.
#![tactic(auto)]

ghost use Rattle.std.specs.Prelude.{◌≡◌};
ghost use Rattle.batch_whole.specs.Whole.{whole_check};

use batch_frame::read_frame;
use tables::limits::BATCH_LIMIT;
use tables::refusal::{Reason, Refusal, refused};

// The words of all frames, the last one's from a place on: 10 for words, as a frame, words left over.
pub fn frame_checked(b: &[u16], n: usize, at: usize) -> Result<(), Refusal>
    ensures { result ≡ whole_check b.now n at }
{
    if BATCH_LIMIT < b.len() {
        return refused(Reason::Batch, 6, BATCH_LIMIT);
    }
    let f = read_frame(b, n, at)?;
    if f.next == b.len() {
        return Ok(());
    }
    refused(Reason::Ends, 6, f.next)
}
