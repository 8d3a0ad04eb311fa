// Table 11, one byte: what each of the 256 does at each place of two texts, and behind them.
use crate::read_tags::read;
use std::io;
use std::io::Stdout;
use test_parts::answers::{code, earlier_than, show_answer};
use test_parts::numbering::front_bytes;
use test_parts::put::put_instead;
use test_parts::show::{spaced, text};

// Bytes of the longer text, and one more.
const ROOM: usize = 18;

// The answer for a text with a byte at a place.
fn answer(s: &[u8], at: usize, b: u8) -> usize {
    let mut t = [0u8; ROOM];
    let mut words = [7u16; 4];
    let n = put_instead(&mut t, s, at, &[b]);
    code(read(front_bytes(&t, n), &mut words))
}

// Bytes that have one answer.
fn show_run(
    stdout: Stdout,
    name: &[u8],
    at: usize,
    from: usize,
    to: usize,
    a: usize,
) -> io::Result<()> {
    text(stdout, name)?;
    spaced(stdout, at)?;
    spaced(stdout, from)?;
    spaced(stdout, to)?;
    show_answer(stdout, a)
}

// Every byte at a place.
fn lines_at(stdout: Stdout, name: &[u8], s: &[u8], at: usize) -> io::Result<()> {
    let mut from = 0;
    let mut last = answer(s, at, 0);
    for b in 1..256 {
        let a = answer(s, at, (b % 256) as u8);
        if a != last {
            show_run(stdout, name, at, from, earlier_than(b, 0), last)?;
            from = b;
            last = a;
        }
    }
    show_run(stdout, name, at, from, 255, last)
}

// Every place, and behind the last.
fn lines_of(stdout: Stdout, name: &[u8], s: &[u8]) -> io::Result<()> {
    for at in 0..s.len() {
        lines_at(stdout, name, s, at)?;
    }
    lines_at(stdout, name, s, s.len())
}

pub(crate) fn lines(stdout: Stdout) -> io::Result<()> {
    lines_of(stdout, b"tag-byte 0 ", b"<n12><n3/></n12>")?;
    lines_of(stdout, b"tag-byte 1 ", b"<n65535></n65535>")
}
