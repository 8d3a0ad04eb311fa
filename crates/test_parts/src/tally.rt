// What a line of table 5 tells: how many calls were answered, for how many the answer came back, and the digest.
use crate::digest::{refusal, taken};
use crate::show::{eight, spaced, text};
use c_answer::answer::Answer;
use std::io;
use std::io::Stdout;

#[derive(Clone, Copy)]
pub struct Tally {
    pub answered: usize,
    pub back: usize,
    pub digest: u64,
}

// Before the first call.
pub fn nothing() -> Tally {
    Tally {
        answered: 0,
        back: 0,
        digest: 0,
    }
}

// One more where it is so.
pub fn one_more(n: usize, so: bool) -> usize {
    if so {
        return n % 16777216 + 1;
    }
    n
}

// How much was written, or the refusal.
pub fn told(d: u64, a: Answer) -> u64 {
    if a.refusal != 0 {
        return refusal(d, a);
    }
    taken(d, a.first)
}

// A line with all three.
pub fn line(stdout: Stdout, name: &[u8], length: usize, t: Tally) -> io::Result<()> {
    text(stdout, name)?;
    spaced(stdout, length)?;
    spaced(stdout, t.answered)?;
    spaced(stdout, t.back)?;
    eight(stdout, t.digest)?;
    text(stdout, b"\n")
}
