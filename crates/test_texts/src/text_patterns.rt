// Table 5, patterns: each written into every room.
use c_answer::answer::Answer;
use sloefertand::patterns::{sloefertand_read_pattern, sloefertand_write_pattern};
use std::io;
use std::io::Stdout;
use test_parts::digest::bytes;
use test_parts::numbering::front_bytes;
use test_parts::rows;
use test_parts::tally::{Tally, line, nothing, one_more, told};

// The most words of a pattern.
const LONGEST: usize = 6;

// Bytes of the longest buffer, one more than any pattern needs.
const ROOM: usize = 12;

// Writes a pattern; label 3 has no name.
fn write(p: &[u16], out: &mut [u8]) -> Answer {
    sloefertand_write_pattern(b"b\na-\n", p, out)
}

// The answer and the buffer.
fn write_into(p: &[u16], out: &mut [u8], d: u64) -> u64 {
    let a = write(p, out);
    bytes(told(d, a), out)
}

// The same with so many bytes.
fn with_room(p: &[u16], room: usize, d: u64) -> u64 {
    let mut out = [7u8; ROOM];
    if ROOM < room {
        return d;
    }
    write_into(p, &mut out[0..room], d)
}

// Every room.
fn rooms(p: &[u16], d: u64) -> u64 {
    let mut sum = d;
    for room in 0..=ROOM {
        sum = with_room(p, room, sum);
    }
    sum
}

// Whether a text, read with the same names into all of a buffer, gives the pattern.
fn gives(s: &[u8], out: &mut [u16], p: &[u16]) -> bool {
    let a = sloefertand_read_pattern(b"b\na-\n", s, out);
    if a.refusal != 0 {
        return false;
    }
    rows::same_words(out, p)
}

// The same, into as many words as the pattern has.
fn comes_back(s: &[u8], p: &[u16]) -> bool {
    let mut out = [7u16; LONGEST];
    let n = p.len();
    if LONGEST < n {
        return false;
    }
    gives(s, &mut out[0..n], p)
}

// One pattern.
fn tried(p: &[u16], t: Tally) -> Tally {
    let mut out = [7u8; ROOM];
    let d = rooms(p, t.digest);
    let a = write(p, &mut out);
    if a.refusal != 0 {
        return Tally {
            answered: t.answered,
            back: t.back,
            digest: d,
        };
    }
    Tally {
        answered: one_more(t.answered, true),
        back: one_more(t.back, comes_back(front_bytes(&out, a.first), p)),
        digest: d,
    }
}

// Pattern k of as many words as there is room for.
fn filled(k: usize, p: &mut [u16], t: Tally) -> Tally {
    rows::words(k, 4, p);
    tried(p, t)
}

// The same of so many words.
fn pattern_of(k: usize, length: usize, t: Tally) -> Tally {
    let mut p = [0u16; LONGEST];
    if LONGEST < length {
        return t;
    }
    filled(k, &mut p[0..length], t)
}

// Every pattern of so many words.
fn patterns_of(length: usize, count: usize) -> Tally {
    let mut t = nothing();
    for k in 0..count {
        t = pattern_of(k, length, t);
    }
    t
}

fn line_of(stdout: Stdout, length: usize, count: usize) -> io::Result<()> {
    line(stdout, b"patterns ", length, patterns_of(length, count))
}

// Every length, with four kinds of words.
pub(crate) fn lines(stdout: Stdout) -> io::Result<()> {
    line_of(stdout, 0, 1)?;
    line_of(stdout, 1, 4)?;
    line_of(stdout, 2, 16)?;
    line_of(stdout, 3, 64)?;
    line_of(stdout, 4, 256)?;
    line_of(stdout, 5, 1024)?;
    line_of(stdout, 6, 4096)
}
