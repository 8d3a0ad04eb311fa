// The steps at which a reading asks.
ghost use Rattle.pattern_set.specs.Sets.{Word};
ghost use Rattle.doc_read.specs.Standing.{asked, LastWanted};

use pattern_masks::{held, put};
use tables::limits::STEP_LIMIT;
use tables::words::byte;

// The word of the wanted steps from the step `from` on.
pub(crate) fn wanted_word(p: &[u16], from: usize, wanted: &[u8]) -> u64
    ensures { Word (asked p.now wanted.now) from result }
{
    let m = held(p.len() / 2, from);
    let mut s: u64 = 0;
    for i in 0..m {
        s = put(s, i, byte(wanted, from + i) == 1);
    }
    s
}

// A read asks at the last step alone.
pub(crate) fn last_wanted(p: &[u16]) -> [u8; STEP_LIMIT]
    ensures { LastWanted p.now result }
{
    let mut wanted = [0u8; STEP_LIMIT];
    let n = p.len() / 2;
    if n == 0 {
        return wanted;
    }
    if STEP_LIMIT < n {
        return wanted;
    }
    wanted[n - 1] = 1;
    wanted
}
