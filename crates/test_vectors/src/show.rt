// What is printed: an answer, a table, a row.
use c_answer::answer::Answer;
use std::io;
use std::io::Stdout;
use tables::words::{byte, word};

pub(crate) fn text(stdout: Stdout, s: &[u8]) -> io::Result<()> {
    stdout.write_all(s)
}

pub(crate) fn heading(stdout: Stdout, s: &[u8]) -> io::Result<()> {
    text(stdout, s)?;
    text(stdout, b"\n")
}

// A space and a number.
fn number(stdout: Stdout, n: usize) -> io::Result<()> {
    text(stdout, b" ")?;
    stdout.print(n)
}

// The first so many values of an answer.
fn values(stdout: Stdout, a: Answer, count: usize) -> io::Result<()> {
    if count == 0 {
        return Ok(());
    }
    number(stdout, a.first)?;
    if count == 1 {
        return Ok(());
    }
    number(stdout, a.second)?;
    if count == 2 {
        return Ok(());
    }
    number(stdout, a.third)?;
    if count == 3 {
        return Ok(());
    }
    number(stdout, a.fourth)
}

// The bytes of a row that are in use.
pub(crate) fn front(m: &[u8], n: usize) -> &[u8] {
    if m.len() < n {
        return m;
    }
    &m[0..n]
}

// What a call answered: its refusal, or its values.
pub(crate) fn answer(stdout: Stdout, a: Answer, count: usize) -> io::Result<()> {
    if a.refusal == 0 {
        return values(stdout, a, count);
    }
    text(stdout, b" refused")?;
    number(stdout, a.refusal)?;
    text(stdout, b" table")?;
    number(stdout, a.table)?;
    text(stdout, b" place")?;
    number(stdout, a.place)
}

fn word_at(stdout: Stdout, t: &[u16], i: usize) -> io::Result<()> {
    number(stdout, word(t, i))
}

// The words of a table.
pub(crate) fn table(stdout: Stdout, name: &[u8], t: &[u16]) -> io::Result<()> {
    text(stdout, name)?;
    for i in 0..t.len() {
        word_at(stdout, t, i)?;
    }
    text(stdout, b"\n")
}

fn byte_at(stdout: Stdout, m: &[u8], i: usize) -> io::Result<()> {
    number(stdout, byte(m, i))
}

// The bytes of a row.
pub(crate) fn row(stdout: Stdout, name: &[u8], m: &[u8]) -> io::Result<()> {
    text(stdout, name)?;
    for i in 0..m.len() {
        byte_at(stdout, m, i)?;
    }
    text(stdout, b"\n")
}

// An identity as a number.
fn wide(id: u32) -> usize {
    id as usize
}

fn identity_at(stdout: Stdout, i: &[u32], k: usize) -> io::Result<()> {
    if k < i.len() {
        number(stdout, wide(i[k]))?;
    }
    Ok(())
}

// The identities of a row.
pub(crate) fn identities(stdout: Stdout, name: &[u8], i: &[u32]) -> io::Result<()> {
    text(stdout, name)?;
    for k in 0..i.len() {
        identity_at(stdout, i, k)?;
    }
    text(stdout, b"\n")
}
