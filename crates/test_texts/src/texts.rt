// Table 5: patterns as text. Here the texts; the other parts have files of their own.
use crate::{paired, single_bytes, text_lists, text_patterns};
use c_answer::answer::Answer;
use check::same;
use sloefertand::patterns::{sloefertand_read_pattern, sloefertand_write_pattern};
use std::io;
use std::io::Stdout;
use test_parts::digest::words;
use test_parts::numbering::front;
use test_parts::rows;
use test_parts::tally::{Tally, line, nothing, one_more, told};

// The most bytes of a text.
const LONGEST: usize = 8;

// Words of the buffer, one more than any text needs.
const ROOM: usize = 9;

// Reads a text; one of the names is the start of another.
fn read(s: &[u8], out: &mut [u16]) -> Answer {
    sloefertand_read_pattern(b"b\na-\na\n", s, out)
}

// Whether words, written with the same names into all of a buffer, give the text.
fn gives(p: &[u16], out: &mut [u8], s: &[u8]) -> bool {
    let a = sloefertand_write_pattern(b"b\na-\na\n", p, out);
    if a.refusal != 0 {
        return false;
    }
    same(out, s)
}

// The same, into as many bytes as the text has.
fn comes_back(p: &[u16], s: &[u8]) -> bool {
    let mut out = [7u8; LONGEST];
    let n = s.len();
    if LONGEST < n {
        return false;
    }
    gives(p, &mut out[0..n], s)
}

// The answer and the buffer.
fn read_into(s: &[u8], out: &mut [u16], d: u64) -> u64 {
    let a = read(s, out);
    words(told(d, a), out)
}

// The same where there is one word less than n.
fn with_less(s: &[u8], n: usize, d: u64) -> u64 {
    let mut out = [7u16; ROOM];
    if n == 0 {
        return d;
    }
    let less = n - 1;
    if ROOM < less {
        return d;
    }
    read_into(s, &mut out[0..less], d)
}

// One text.
fn tried(s: &[u8], t: Tally) -> Tally {
    let mut out = [7u16; ROOM];
    let a = read(s, &mut out);
    let d = words(told(t.digest, a), &out);
    if a.refusal != 0 {
        return Tally {
            answered: t.answered,
            back: t.back,
            digest: d,
        };
    }
    Tally {
        answered: one_more(t.answered, true),
        back: one_more(t.back, comes_back(front(&out, a.first), s)),
        digest: with_less(s, a.first, d),
    }
}

// Text k of as many bytes as there is room for.
fn spelled(k: usize, s: &mut [u8], t: Tally) -> Tally {
    rows::bytes(k, b"/*ab-", s);
    tried(s, t)
}

// The same of so many bytes.
fn text_of(k: usize, length: usize, t: Tally) -> Tally {
    let mut s = [0u8; LONGEST];
    if LONGEST < length {
        return t;
    }
    spelled(k, &mut s[0..length], t)
}

// Every text of so many bytes.
fn texts_of(length: usize, count: usize) -> Tally {
    let mut t = nothing();
    for k in 0..count {
        t = text_of(k, length, t);
    }
    t
}

fn line_of(stdout: Stdout, length: usize, count: usize) -> io::Result<()> {
    line(stdout, b"texts ", length, texts_of(length, count))
}

// Every length, with five kinds of bytes.
fn lines(stdout: Stdout) -> io::Result<()> {
    line_of(stdout, 0, 1)?;
    line_of(stdout, 1, 5)?;
    line_of(stdout, 2, 25)?;
    line_of(stdout, 3, 125)?;
    line_of(stdout, 4, 625)?;
    line_of(stdout, 5, 3125)?;
    line_of(stdout, 6, 15625)?;
    line_of(stdout, 7, 78125)?;
    line_of(stdout, 8, 390625)
}

pub(crate) fn table(stdout: Stdout) -> io::Result<()> {
    single_bytes::lines(stdout)?;
    lines(stdout)?;
    text_lists::lines(stdout)?;
    text_patterns::lines(stdout)?;
    paired::lines(stdout)
}
