// Table 5, lists: one text read with each.
use sloefertand::patterns::sloefertand_read_pattern;
use std::io;
use std::io::Stdout;
use test_parts::digest::words;
use test_parts::rows;
use test_parts::show::{eight, spaced, text};
use test_parts::tally::{Tally, nothing, one_more, told};

// The most bytes of a list.
const LONGEST: usize = 8;

// One list: it is right where reading does not refuse it by 14.
fn tried(list: &[u8], t: Tally) -> Tally {
    let mut out = [7u16; 3];
    let a = sloefertand_read_pattern(list, b"/a", &mut out);
    Tally {
        answered: one_more(t.answered, a.refusal != 14),
        back: 0,
        digest: words(told(t.digest, a), &out),
    }
}

// List k of as many bytes as there is room for.
fn spelled(k: usize, list: &mut [u8], t: Tally) -> Tally {
    rows::bytes(k, b"ab-:\n", list);
    tried(list, t)
}

// The same of so many bytes.
fn list_of(k: usize, length: usize, t: Tally) -> Tally {
    let mut list = [0u8; LONGEST];
    if LONGEST < length {
        return t;
    }
    spelled(k, &mut list[0..length], t)
}

// Every list of so many bytes.
fn lists_of(length: usize, count: usize) -> Tally {
    let mut t = nothing();
    for k in 0..count {
        t = list_of(k, length, t);
    }
    t
}

fn line_of(stdout: Stdout, length: usize, count: usize) -> io::Result<()> {
    let t = lists_of(length, count);
    text(stdout, b"lists ")?;
    spaced(stdout, length)?;
    spaced(stdout, t.answered)?;
    eight(stdout, t.digest)?;
    text(stdout, b"\n")
}

// Every length, with five kinds of bytes.
pub(crate) fn lines(stdout: Stdout) -> io::Result<()> {
    line_of(stdout, 0, 1)?;
    line_of(stdout, 1, 5)?;
    line_of(stdout, 2, 25)?;
    line_of(stdout, 3, 125)?;
    line_of(stdout, 4, 625)?;
    line_of(stdout, 5, 3125)?;
    line_of(stdout, 6, 15625)?;
    line_of(stdout, 7, 78125)?;
    line_of(stdout, 8, 390625)
}
