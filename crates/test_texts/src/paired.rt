// Table 5, two faults at once: every small list with every small text, and with every small pattern.
use sloefertand::patterns::{sloefertand_read_pattern, sloefertand_write_pattern};
use std::io;
use std::io::Stdout;
use test_parts::digest::{bytes, words};
use test_parts::numbering::{front, front_bytes};
use test_parts::rows;
use test_parts::show::{eight, text};
use test_parts::tally::told;

// The most bytes of a list or a text and words of a pattern; the longest buffer too.
const LONGEST: usize = 3;

// How many of each there are, of three kinds of elements; and how many buffers.
const ROWS: usize = 40;

const ROOMS: usize = 4;

// The length of row k: there are 1, 3, 9 and 27 of 0 to 3 elements.
fn length(k: usize) -> usize {
    if k < 1 {
        return 0;
    }
    if k < 4 {
        return 1;
    }
    if k < 13 {
        return 2;
    }
    3
}

// Its number among the rows of that length.
fn number(k: usize) -> usize {
    if k < 1 {
        return k;
    }
    if k < 4 {
        return k - 1;
    }
    if k < 13 {
        return k - 4;
    }
    k - 13
}

// Writes row k of bytes; its length.
fn spelled(k: usize, alphabet: &[u8], row: &mut [u8]) -> usize {
    let n = length(k);
    if row.len() < n {
        return 0;
    }
    rows::bytes(number(k), alphabet, &mut row[0..n]);
    n
}

// Writes row k of words; its length.
fn pattern(k: usize, row: &mut [u16]) -> usize {
    let n = length(k);
    if row.len() < n {
        return 0;
    }
    rows::words(number(k), 3, &mut row[0..n]);
    n
}

// A list and a text: the answer and the buffer.
fn read_into(list: &[u8], s: &[u8], out: &mut [u16], d: u64) -> u64 {
    let a = sloefertand_read_pattern(list, s, out);
    words(told(d, a), out)
}

// The same with so many words.
fn read(list: &[u8], s: &[u8], room: usize, d: u64) -> u64 {
    let mut out = [7u16; LONGEST];
    if LONGEST < room {
        return d;
    }
    read_into(list, s, &mut out[0..room], d)
}

// A list and a pattern: the answer and the buffer.
fn write_into(list: &[u8], p: &[u16], out: &mut [u8], d: u64) -> u64 {
    let a = sloefertand_write_pattern(list, p, out);
    bytes(told(d, a), out)
}

// The same with so many bytes.
fn write(list: &[u8], p: &[u16], room: usize, d: u64) -> u64 {
    let mut out = [7u8; LONGEST];
    if LONGEST < room {
        return d;
    }
    write_into(list, p, &mut out[0..room], d)
}

// List i with text j.
fn with_text(i: usize, j: usize, room: usize, d: u64) -> u64 {
    let mut list = [0u8; LONGEST];
    let n = spelled(i, b"a:\n", &mut list);
    let mut s = [0u8; LONGEST];
    let m = spelled(j, b"/a*", &mut s);
    read(front_bytes(&list, n), front_bytes(&s, m), room, d)
}

// List i with pattern j.
fn with_pattern(i: usize, j: usize, room: usize, d: u64) -> u64 {
    let mut list = [0u8; LONGEST];
    let n = spelled(i, b"a:\n", &mut list);
    let mut p = [0u16; LONGEST];
    let m = pattern(j, &mut p);
    write(front_bytes(&list, n), front(&p, m), room, d)
}

// Every list with every text; the buffer changes fastest.
fn texts() -> u64 {
    let mut d = 0;
    for k in 0..ROWS * ROWS * ROOMS {
        d = with_text(k / ROOMS / ROWS, k / ROOMS % ROWS, k % ROOMS, d);
    }
    d
}

// Every list with every pattern.
fn patterns() -> u64 {
    let mut d = 0;
    for k in 0..ROWS * ROWS * ROOMS {
        d = with_pattern(k / ROOMS / ROWS, k / ROOMS % ROWS, k % ROOMS, d);
    }
    d
}

pub(crate) fn lines(stdout: Stdout) -> io::Result<()> {
    text(stdout, b"list-and-text ")?;
    eight(stdout, texts())?;
    text(stdout, b"\nlist-and-pattern ")?;
    eight(stdout, patterns())?;
    text(stdout, b"\n")
}
