// Answers as numbers, and shown.
use crate::show::{number, spaced, text};
use c_answer::answer::Answer;
use std::io;
use std::io::Stdout;

// An answer as one number: its first value, or from 1,000,000 on the refusal's number, table and place, which is below 100,000 for any batch, tree or text here.
pub fn code(a: Answer) -> usize {
    if a.refusal == 0 {
        return a.first;
    }
    a.refusal % 100 * 1000000 + a.table % 10 * 100000 + a.place % 100000
}

pub fn show_answer(stdout: Stdout, a: usize) -> io::Result<()> {
    if a < 1000000 {
        text(stdout, b"ok ")?;
        number(stdout, a)?;
        return text(stdout, b"\n");
    }
    spaced(stdout, a / 1000000)?;
    spaced(stdout, a / 100000 % 10)?;
    number(stdout, a % 100000)?;
    text(stdout, b"\n")
}

// One place back behind w.
pub fn earlier_than(i: usize, w: usize) -> usize {
    if i <= w {
        return i;
    }
    i - 1
}
