// Table 9: the batches of table 3 given to the plan printer, a line a frame, with one line damaged; behind each batch's lines those of mode lines.
use crate::damage::{FIRST, FOURTH, SECOND, THIRD};
use crate::mode_lines;
use crate::two_damages::{DAMAGES, Damage, written};
use sloefertand::batches::sloefertand_step;
use sloefertand::texts::{sloefertand_print, sloefertand_read_line, sloefertand_write_line};
use std::io;
use std::io::Stdout;
use tables::words::{byte, word};
use test_parts::numbering::{front, front_bytes};
use test_parts::put::{put, put_all};
use test_parts::show::{number, spaced, text};

// The damages of a line's text, counted on behind those of a word: its last digit left out, a blank in front of it, an empty line before it.
const CUT: usize = DAMAGES;

const BLANK: usize = DAMAGES + 1;

const EMPTY: usize = DAMAGES + 2;

const ALL: usize = DAMAGES + 3;

// Words of the longest line, with one doubled.
const WORDS: usize = 12;

// Bytes of the input, one more than the longest has, 35 words in 7 lines.
pub(crate) const ROOM: usize = 148;

// Bytes of the longest output, a line of 13 for each of 5 frames.
pub(crate) const PRINTED: usize = 65;

// Where no line has a word.
const NOWHERE: usize = 16384;

// What stands before a line's digits.
fn put_front(out: &mut [u8], at: usize, kind: usize) -> usize {
    if kind == BLANK {
        return put(out, at, b' ');
    }
    if kind == EMPTY {
        return put(out, at, b'\n');
    }
    at
}

// The digits of some words.
fn put_words(out: &mut [u8], at: usize, words: &[u16]) -> usize {
    if out.len() < at {
        return at;
    }
    let a = sloefertand_write_line(words, &mut out[at..]);
    at % ROOM + a.first % ROOM
}

// The line feed, behind the last digit or in its place.
fn put_end(out: &mut [u8], at: usize, kind: usize) -> usize {
    if kind != CUT {
        return put(out, at, b'\n');
    }
    if at == 0 {
        return at;
    }
    put(out, at - 1, b'\n')
}

// The damage of a frame's line, ALL for none: it is in the line that has the word.
fn kind_in(frame: &[u16], d: Damage) -> usize {
    if frame.len() <= d.word {
        return ALL;
    }
    d.kind
}

// A frame's line with its damage, if it has one.
pub(crate) fn put_line(out: &mut [u8], at: usize, frame: &[u16], d: Damage) -> usize {
    let mut words = [0u16; WORDS];
    let n = written(&mut words, frame, d, d);
    let kind = kind_in(frame, d);
    let start = put_front(out, at, kind);
    let end = put_words(out, start, front(&words, n));
    put_end(out, end, kind)
}

// The damage of no line.
pub(crate) fn undamaged() -> Damage {
    Damage {
        word: NOWHERE,
        kind: ALL,
    }
}

// A damage with its word counted from another word on.
fn counted_from(d: Damage, from: usize) -> Damage {
    if d.word < from {
        return Damage {
            word: NOWHERE,
            kind: d.kind,
        };
    }
    Damage {
        word: d.word - from,
        kind: d.kind,
    }
}

// Where frame n ends that starts at a word of a batch.
pub(crate) fn end_of(b: &[u16], n: usize, from: usize) -> usize {
    sloefertand_step(b, n, from).second
}

// The words from one place to another, none where there are fewer.
fn part(b: &[u16], from: usize, to: usize) -> &[u16] {
    if b.len() < to {
        return &b[0..0];
    }
    if to < from {
        return &b[0..0];
    }
    &b[from..to]
}

// The lines of a batch with one damaged, behind the bytes written.
pub(crate) fn put_lines(
    out: &mut [u8],
    start: usize,
    b: &[u16],
    frames: usize,
    d: Damage,
) -> usize {
    let mut at = start;
    let mut from = 0;
    for n in 0..frames {
        let to = end_of(b, n, from);
        at = put_line(out, at, part(b, from, to), counted_from(d, from));
        from = to;
    }
    at
}

// Whether a printed line is a refusal's, of four words; these words.
fn is_refusal(line: &[u8], words: &mut [u16]) -> bool {
    if sloefertand_read_line(line, 1, words).refusal != 0 {
        return false;
    }
    word(words, 0) == 65535
}

// The line number, the refusal number and the offset in the line.
fn show_refusal(stdout: Stdout, words: &[u16]) -> io::Result<()> {
    number(stdout, word(words, 1))?;
    text(stdout, b":")?;
    number(stdout, word(words, 2))?;
    text(stdout, b":")?;
    number(stdout, word(words, 3))
}

// Whether so many printed lines have 13 bytes each and begin with a kind.
fn is_plan(out: &[u8], frames: usize) -> bool {
    if out.len() != frames % 8 * 13 {
        return false;
    }
    byte(out, 0) == 48
}

// What was printed: a refusal's line alone, or a line a frame.
fn show_printed(stdout: Stdout, out: &[u8], frames: usize) -> io::Result<()> {
    let mut words = [0u16; 4];
    if out.len() == 17 {
        if is_refusal(front_bytes(out, 16), &mut words) {
            return show_refusal(stdout, &words);
        }
    }
    if is_plan(out, frames) {
        return text(stdout, b"ok");
    }
    text(stdout, b"neither")
}

// The answer for an input that has so many frames.
pub(crate) fn show_answer(stdout: Stdout, input: &[u8], frames: usize) -> io::Result<()> {
    let mut out = [0u8; PRINTED];
    let a = sloefertand_print(input, &mut out);
    text(stdout, b" ")?;
    show_printed(stdout, front_bytes(&out, a.first), frames)
}

// The answer for a batch with one line damaged, behind some lines.
pub(crate) fn show_behind(
    stdout: Stdout,
    before: &[u8],
    b: &[u16],
    frames: usize,
    d: Damage,
) -> io::Result<()> {
    let mut input = [0u8; ROOM];
    let at = put_all(&mut input, 0, before);
    let n = put_lines(&mut input, at, b, frames, d);
    show_answer(stdout, front_bytes(&input, n), frames)
}

// The same with no lines before it.
fn show_damaged(stdout: Stdout, b: &[u16], frames: usize, d: Damage) -> io::Result<()> {
    show_behind(stdout, &[], b, frames, d)
}

// The answers for some damages, and the end of their line.
fn show_answers(
    stdout: Stdout,
    b: &[u16],
    frames: usize,
    w: usize,
    first: usize,
    behind: usize,
) -> io::Result<()> {
    for kind in first..behind {
        show_damaged(stdout, b, frames, Damage { word: w, kind })?;
    }
    text(stdout, b"\n")
}

// Every word of a batch.
fn words_of(stdout: Stdout, name: usize, b: &[u16], frames: usize) -> io::Result<()> {
    for w in 0..b.len() {
        spaced(stdout, name)?;
        number(stdout, w)?;
        show_answers(stdout, b, frames, w, 0, DAMAGES)?;
    }
    Ok(())
}

// Every line of a batch, known by its first word.
fn texts_of(stdout: Stdout, name: usize, b: &[u16], frames: usize) -> io::Result<()> {
    let mut from = 0;
    for n in 0..frames {
        let to = end_of(b, n, from);
        spaced(stdout, name)?;
        text(stdout, b"line ")?;
        number(stdout, n + 1)?;
        show_answers(stdout, b, frames, from, CUT, ALL)?;
        from = to;
    }
    Ok(())
}

fn lines(stdout: Stdout, name: usize, b: &[u16], frames: usize) -> io::Result<()> {
    words_of(stdout, name, b, frames)?;
    texts_of(stdout, name, b, frames)?;
    mode_lines::lines(stdout, name, b, frames)
}

pub(crate) fn table(stdout: Stdout) -> io::Result<()> {
    lines(stdout, 1, &FIRST, 5)?;
    lines(stdout, 2, &SECOND, 2)?;
    lines(stdout, 3, &THIRD, 1)?;
    lines(stdout, 4, &FOURTH, 3)
}
