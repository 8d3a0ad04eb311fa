// Batches: how many frames one has, or its refusal.
#![tactic(auto)]

ghost use Rattle.std.specs.Prelude.{◌≡◌, length};
ghost use Rattle.batch_check.specs.Batches.{batch_of, check_from, batch_check, plan_check, counted_of};

use batch_frame::read_frame;
use check_size::output;
use tables::limits::BATCH_LIMIT;
use tables::refusal::{Reason, Refusal};

// The frames, one after another from the front.
fn walked(b: &[u16]) -> Result<usize, Refusal>
    ensures { result ≡ counted_of (check_from b.now 0 0 (length b.now)) (length (batch_of b.now)) }
{
    let mut n = 0;
    let mut at = 0;
    while at < b.len() {
        let f = read_frame(b, n, at)?;
        at = f.next;
        n += 1;
    }
    Ok(n)
}

// The words first, then the frames.
fn limited(b: &[u16]) -> Result<usize, Refusal>
    ensures { result ≡ counted_of (batch_check b.now) (length (batch_of b.now)) }
{
    if BATCH_LIMIT < b.len() {
        return Err(Refusal {
            reason: Reason::Batch,
            table: 6,
            place: BATCH_LIMIT,
        });
    }
    walked(b)
}

// An accepted batch, and a plan of so many words: refusal 7 where they are fewer than the frames.
pub fn checked(b: &[u16], words: usize) -> Result<usize, Refusal>
    ensures { result ≡ counted_of (plan_check b.now words) (length (batch_of b.now)) }
{
    let n = limited(b)?;
    output(n, words)?;
    Ok(n)
}
