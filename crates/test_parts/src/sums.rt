// What a line of table 8, 11 or 14 tells: how many calls there were, how many of them wrote, how much they wrote in all, how much the last one wrote, and the digest.
use crate::show::{eight, spaced, text};
use crate::tally::one_more;
use c_answer::answer::Answer;
use std::io;
use std::io::Stdout;

#[derive(Clone, Copy)]
pub struct Sums {
    pub calls: usize,
    pub written: usize,
    pub length: usize,
    pub last: usize,
    pub digest: u64,
}

// Before the first call.
pub fn no_calls() -> Sums {
    Sums {
        calls: 0,
        written: 0,
        length: 0,
        last: 0,
        digest: 0,
    }
}

// One call more, by its answer and the digest behind it.
pub fn counted(s: Sums, a: Answer, digest: u64) -> Sums {
    Sums {
        calls: one_more(s.calls, true),
        written: one_more(s.written, a.refusal == 0),
        length: s.length % 16777216 + a.first % 65536,
        last: a.first,
        digest,
    }
}

// The line, with all but the last.
pub fn show_sums(stdout: Stdout, name: &[u8], n: usize, s: Sums) -> io::Result<()> {
    text(stdout, name)?;
    spaced(stdout, n)?;
    spaced(stdout, s.calls)?;
    spaced(stdout, s.written)?;
    spaced(stdout, s.length)?;
    eight(stdout, s.digest)?;
    text(stdout, b"\n")
}
