// Table 5, one byte: what each of the 256 does in a text and in a list.
use sloefertand::patterns::sloefertand_read_pattern;
use std::io;
use std::io::Stdout;
use test_parts::answers::{code, earlier_than, show_answer};
use test_parts::show::{spaced, text};

// The answer for a list and a text.
fn read(list: &[u8], s: &[u8]) -> usize {
    let mut words = [7u16; 2];
    code(sloefertand_read_pattern(list, s, &mut words))
}

// The answer for a byte in a place: first or later in a step, first or later in an entry.
fn answer(place: usize, b: u8) -> usize {
    if place == 0 {
        return read(&[], &[b'/', b]);
    }
    if place == 1 {
        return read(&[], &[b'/', b'a', b]);
    }
    if place == 2 {
        return read(&[b, b'\n'], b"/*");
    }
    read(&[b'a', b, b'\n'], b"/*")
}

// Bytes that have one answer.
fn show_run(stdout: Stdout, name: &[u8], from: usize, to: usize, a: usize) -> io::Result<()> {
    text(stdout, name)?;
    spaced(stdout, from)?;
    spaced(stdout, to)?;
    show_answer(stdout, a)
}

// Every byte in a place.
fn lines_of(stdout: Stdout, name: &[u8], place: usize) -> io::Result<()> {
    let mut from = 0;
    let mut last = answer(place, 0);
    for b in 1..256 {
        let a = answer(place, (b % 256) as u8);
        if a != last {
            show_run(stdout, name, from, earlier_than(b, 0), last)?;
            from = b;
            last = a;
        }
    }
    show_run(stdout, name, from, 255, last)
}

pub(crate) fn lines(stdout: Stdout) -> io::Result<()> {
    lines_of(stdout, b"text-first ", 0)?;
    lines_of(stdout, b"text-later ", 1)?;
    lines_of(stdout, b"list-first ", 2)?;
    lines_of(stdout, b"list-later ", 3)
}
