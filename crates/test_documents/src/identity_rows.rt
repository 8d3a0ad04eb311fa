// Table 12: identity rows, right and wrong. Here are the checks of small rows and of rows with wide numbers.
use crate::{id_edges, id_orders};
use sloefertand::checking::sloefertand_v2_check_document;
use std::io;
use std::io::Stdout;
use test_parts::rows::{behind, first};
use test_parts::show::{spaced, text};
use test_parts::tally::{Tally, line, nothing, one_more, told};
use test_parts::wide::{front_ids, narrowed, number};

// Small rows are made of the numbers below 5.
const SMALL: usize = 5;

// Wide rows are made of seven numbers.
const WIDE: usize = 7;

// The wide number i.
fn wide(i: usize) -> u32 {
    if i == 0 {
        return 0;
    }
    if i == 1 {
        return 65535;
    }
    if i == 2 {
        return 65536;
    }
    if i == 3 {
        return 2147483647;
    }
    if i == 4 {
        return 2147483648;
    }
    if i == 5 {
        return 4294967294;
    }
    4294967295
}

// Number i of a kind of rows.
fn value(kinds: usize, i: usize) -> u32 {
    if kinds == WIDE {
        return wide(i);
    }
    narrowed(i)
}

// Row k.
fn row(k: usize, kinds: usize) -> [u32; 4] {
    let second = behind(k, kinds);
    let third = behind(second, kinds);
    let fourth = behind(third, kinds);
    [
        value(kinds, first(k, kinds)),
        value(kinds, first(second, kinds)),
        value(kinds, first(third, kinds)),
        value(kinds, first(fourth, kinds)),
    ]
}

// One row more.
fn checked(ids: &[u32], used: usize, next: u32, t: Tally) -> Tally {
    let table = [0u16, 1, 0, 2, 1, 3];
    let marks = [0u8; 3];
    let a = sloefertand_v2_check_document(&table, &marks, used, ids, next);
    Tally {
        answered: one_more(t.answered, true),
        back: one_more(t.back, a.refusal == 0),
        digest: told(t.digest, a),
    }
}

// Row k of n identities.
fn checked_row(k: usize, kinds: usize, n: usize, used: usize, next: u32, t: Tally) -> Tally {
    let ids = row(k, kinds);
    checked(front_ids(&ids, n), used, next, t)
}

// Every row of n identities, of which there are so many.
fn rows_of(n: usize, count: usize, kinds: usize, used: usize, next: u32, t: Tally) -> Tally {
    let mut tally = t;
    for k in 0..count {
        tally = checked_row(k, kinds, n, used, next, tally);
    }
    tally
}

// The line of a used count and a next identity, for rows of at most 4 identities.
fn small_line(stdout: Stdout, used: usize, next: u32) -> io::Result<()> {
    let none = rows_of(0, 1, SMALL, used, next, nothing());
    let one = rows_of(1, 5, SMALL, used, next, none);
    let two = rows_of(2, 25, SMALL, used, next, one);
    let three = rows_of(3, 125, SMALL, used, next, two);
    let four = rows_of(4, 625, SMALL, used, next, three);
    text(stdout, b"id-rows ")?;
    spaced(stdout, used)?;
    line(stdout, b"", number(next), four)
}

// The lines of a used count.
fn small_lines(stdout: Stdout, used: usize) -> io::Result<()> {
    small_line(stdout, used, 0)?;
    small_line(stdout, used, 1)?;
    small_line(stdout, used, 2)?;
    small_line(stdout, used, 3)?;
    small_line(stdout, used, 4)?;
    small_line(stdout, used, 5)
}

// The line of the next identity i, for rows of two wide numbers.
fn wide_line(stdout: Stdout, i: usize) -> io::Result<()> {
    line(
        stdout,
        b"id-wide ",
        number(wide(i)),
        rows_of(2, 49, WIDE, 2, wide(i), nothing()),
    )
}

pub(crate) fn table(stdout: Stdout) -> io::Result<()> {
    small_lines(stdout, 1)?;
    small_lines(stdout, 2)?;
    small_lines(stdout, 3)?;
    wide_line(stdout, 0)?;
    wide_line(stdout, 1)?;
    wide_line(stdout, 2)?;
    wide_line(stdout, 3)?;
    wide_line(stdout, 4)?;
    wide_line(stdout, 5)?;
    wide_line(stdout, 6)?;
    id_orders::lines(stdout)?;
    id_edges::lines(stdout)
}
