// Table 3: every single-word damage of some batches, and behind each batch's those of two words.
use crate::two_damages;
use c_answer::answer::Answer;
use sloefertand::batches::sloefertand_plan;
use std::io;
use std::io::Stdout;
use test_parts::answers::{code, earlier_than, show_answer};
use test_parts::numbering::front;
use test_parts::show::{number, spaced, text};

// The batches, of 5, 2, 1 and 3 frames; the first is the listing of document 01.
pub(crate) const FIRST: [u16; 31] = [
    3, 2, 0, 1, 1, 2, 2, 2, 0, 1, 1, 2, 1, 0, 3, 1, 2, 0, 1, 2, 4, 1, 2, 0, 1, 2, 3, 1, 1, 0, 1,
];

pub(crate) const SECOND: [u16; 19] = [2, 1, 0, 0, 3, 0, 1, 0, 2, 1, 3, 1, 3, 0, 1, 1, 0, 2, 2];

pub(crate) const THIRD: [u16; 4] = [1, 1, 0, 1];

pub(crate) const FOURTH: [u16; 20] = [3, 3, 0, 0, 2, 1, 1, 0, 3, 2, 0, 2, 2, 0, 1, 2, 0, 2, 1, 1];

// Words of the longest batch, with one doubled.
const ROOM: usize = 32;

// The answer for a batch, with an output of so many words.
fn answer(b: &[u16], frames: usize) -> usize {
    let mut out = [0u16; 8];
    if 8 < frames {
        return 0;
    }
    code(sloefertand_plan(b, &mut out[0..frames]))
}

// Values that have one answer.
fn show_run(
    stdout: Stdout,
    name: usize,
    w: usize,
    from: usize,
    to: usize,
    a: usize,
) -> io::Result<()> {
    spaced(stdout, name)?;
    spaced(stdout, w)?;
    spaced(stdout, from)?;
    spaced(stdout, to)?;
    show_answer(stdout, a)
}

// The batch, with room behind it.
fn copied(b: &[u16]) -> [u16; ROOM] {
    let mut words = [0u16; ROOM];
    for i in 0..ROOM {
        words[i] = word_of(b, i);
    }
    words
}

// The answer for the first n words with word w replaced.
fn replaced(words: &mut [u16], w: usize, value: u16, n: usize, frames: usize) -> usize {
    if words.len() <= w {
        return 0;
    }
    words[w] = value;
    answer(front(words, n), frames)
}

// A word of a batch, 0 outside.
pub(crate) fn word_of(b: &[u16], i: usize) -> u16 {
    if i < b.len() {
        return b[i];
    }
    0
}

// Word w replaced by every value.
fn values(stdout: Stdout, name: usize, b: &[u16], w: usize, frames: usize) -> io::Result<()> {
    let n = b.len();
    let mut words = copied(b);
    let mut from = 0;
    let mut last = replaced(&mut words, w, 0, n, frames);
    for value in 1..65536 {
        let a = replaced(&mut words, w, (value % 65536) as u16, n, frames);
        if a != last {
            show_run(stdout, name, w, from, earlier_than(value, 0), last)?;
            from = value;
            last = a;
        }
    }
    show_run(stdout, name, w, from, 65535, last)
}

// The batch without word w.
fn without(b: &[u16], w: usize) -> [u16; ROOM] {
    let mut words = [0u16; ROOM];
    for i in 0..ROOM {
        words[i] = word_of(b, later_than(i, w));
    }
    words
}

// One place on from w.
fn later_than(i: usize, w: usize) -> usize {
    if i < w {
        return i;
    }
    i % 16384 + 1
}

// The batch with word w twice.
fn doubled(b: &[u16], w: usize) -> [u16; ROOM] {
    let mut words = [0u16; ROOM];
    for i in 0..ROOM {
        words[i] = word_of(b, earlier_than(i, w));
    }
    words
}

// Word w taken out, and word w doubled.
fn lost_and_twice(
    stdout: Stdout,
    name: usize,
    b: &[u16],
    w: usize,
    frames: usize,
) -> io::Result<()> {
    let n = b.len();
    if n == 0 {
        return Ok(());
    }
    let less = without(b, w);
    spaced(stdout, name)?;
    spaced(stdout, w)?;
    text(stdout, b"lost ")?;
    show_answer(stdout, answer(front(&less, n - 1), frames))?;
    let more = doubled(b, w);
    spaced(stdout, name)?;
    spaced(stdout, w)?;
    text(stdout, b"twice ")?;
    show_answer(stdout, answer(front(&more, n % 16384 + 1), frames))
}

// Every word of a batch.
fn damaged(stdout: Stdout, name: usize, b: &[u16], frames: usize) -> io::Result<()> {
    for w in 0..b.len() {
        values(stdout, name, b, w, frames)?;
        lost_and_twice(stdout, name, b, w, frames)?;
    }
    Ok(())
}

// A batch with one word damaged, then with two.
fn both(stdout: Stdout, name: usize, b: &[u16], frames: usize) -> io::Result<()> {
    damaged(stdout, name, b, frames)?;
    two_damages::lines(stdout, name, b)
}

pub(crate) fn table(stdout: Stdout) -> io::Result<()> {
    both(stdout, 1, &FIRST, 5)?;
    both(stdout, 2, &SECOND, 2)?;
    both(stdout, 3, &THIRD, 1)?;
    both(stdout, 4, &FOURTH, 3)
}
