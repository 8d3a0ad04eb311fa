// Table 14, the order of the checks: mendings of table 12's document with several faults at once.
use crate::documents::less;
use crate::id_orders::{
    damaged_words, identities, ids_lent, marking, marks_lent, used, words_lent,
};
use crate::mends::listed;
use std::io;
use std::io::Stdout;
use test_parts::numbering::front;
use test_parts::sums::{Sums, no_calls};
use test_parts::tally::{Tally, line};
use test_parts::wide::front_ids;

// Mendings of a line.
const CASES: usize = 400;

// The marks with damage k: those of table 12, and one more.
fn damaged_marks(k: usize) -> [u8; 5] {
    if k == 4 {
        return [255, 255, 255, 9, 9];
    }
    marking(k)
}

// The words of list k.
fn room(k: usize) -> usize {
    if k == 1 {
        return 0;
    }
    if k == 2 {
        return 3;
    }
    if k == 3 {
        return 8;
    }
    15
}

// Case c, with damage k of the identities.
fn case(k: usize, c: usize, s: Sums) -> Sums {
    let table = damaged_words(c / 5 % 4);
    let mut marks = damaged_marks(c / 20 % 5);
    let ids = identities(k);
    let some = marks_lent(c % 5);
    listed(
        front(&table, words_lent(c % 5)),
        &mut marks[0..some],
        used(c % 5),
        front_ids(&ids, ids_lent(k, 0)),
        11,
        room(c / 100 % 4),
        s,
    )
}

// Every case.
fn cases(k: usize) -> Sums {
    let mut s = no_calls();
    for c in 0..CASES {
        s = case(k, c, s);
    }
    s
}

// The line of damage k.
fn line_of(stdout: Stdout, k: usize) -> io::Result<()> {
    let s = cases(k);
    line(
        stdout,
        b"mend-order ",
        k,
        Tally {
            answered: s.calls,
            back: less(s.calls, s.written),
            digest: s.digest,
        },
    )
}

pub(crate) fn lines(stdout: Stdout) -> io::Result<()> {
    line_of(stdout, 0)?;
    line_of(stdout, 1)?;
    line_of(stdout, 2)?;
    line_of(stdout, 3)?;
    line_of(stdout, 4)?;
    line_of(stdout, 5)
}
