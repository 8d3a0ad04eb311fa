// Table 12, the edges of an insert: as many identities left as it needs, or one fewer, and as much room in each row, or one node less.
ghost use Rattle.std.specs.Prelude.{◌≤◌};

use crate::id_orders::answered;
use c_answer::answer::Answer;
use sloefertand::operations::sloefertand_v2_insert;
use std::io;
use std::io::Stdout;
use test_parts::digest::rows;
use test_parts::numbering::{front, words_of};
use test_parts::show::{eight, spaced, text};
use test_parts::tally::one_more;
use test_parts::wide::narrowed;

// Inserts of a line.
const INSERTS: usize = 363;

// How they end.
#[derive(Drop)]
struct Sums {
    calls: usize,
    given: usize,
    without_ids: usize,
    without_room: usize,
    digest: u64,
}

// The words of the pattern that selects so many nodes.
fn pattern(copies: usize) -> [u16; 4] {
    if copies == 0 {
        return [0, 2, 0, 0];
    }
    if copies == 1 {
        return [0, 1, 0, 0];
    }
    if copies == 2 {
        return [0, 0, 1, 2];
    }
    [0, 0, 1, 0]
}

// Its steps.
fn steps(copies: usize) -> usize {
    if copies < 2 {
        return 1;
    }
    2
}

// The nodes that row `this` of insert c has room for.
fn length(this: usize, c: usize) -> usize
    ensures { result ≤ 14 }
{
    if c / 121 % 3 == this {
        return c / 11 % 11 + 4;
    }
    14
}

// The next identity of insert c.
fn next(c: usize) -> u32 {
    narrowed(4294967295 - c % 11)
}

// One insert more, by its answer and all rows after it.
fn counted(s: Sums, a: Answer, table: &[u16], marks: &[u8], ids: &[u32]) -> Sums {
    let number = a.refusal;
    Sums {
        calls: one_more(s.calls, true),
        given: one_more(s.given, number == 0),
        without_ids: one_more(s.without_ids, number == 16),
        without_room: one_more(s.without_room, number == 11),
        digest: rows(answered(s.digest, a), table, marks, ids),
    }
}

// The insert into a document of four nodes.
fn tried(
    p: &[u16],
    x: &[u16],
    table: &mut [u16],
    marks: &mut [u8],
    ids: &mut [u32],
    next: u32,
    s: Sums,
) -> Sums {
    let a = sloefertand_v2_insert(p, x, table, marks, 4, ids, next);
    counted(s, a, table, marks, ids)
}

// Insert c.
fn insert_of(p: &[u16], x: &[u16], c: usize, s: Sums) -> Sums {
    let mut table = [
        0u16, 1, 0, 2, 0, 2, 0, 3, 9, 9, 9, 9, 9, 9, 9, 9, 9, 9, 9, 9, 9, 9, 9, 9, 9, 9, 9, 9, 9,
    ];
    let mut marks = [0u8, 0, 0, 0, 9, 9, 9, 9, 9, 9, 9, 9, 9, 9];
    let mut ids = [
        4294967255u32,
        4294967264,
        4294967273,
        4294967282,
        9,
        9,
        9,
        9,
        9,
        9,
        9,
        9,
        9,
        9,
    ];
    let words = 2 * length(0, c) + 1;
    let some = length(1, c);
    let last = length(2, c);
    tried(
        p,
        x,
        &mut table[0..words],
        &mut marks[0..some],
        &mut ids[0..last],
        next(c),
        s,
    )
}

// Every insert of x at p.
fn inserts(p: &[u16], x: &[u16]) -> Sums {
    let mut s = Sums {
        calls: 0,
        given: 0,
        without_ids: 0,
        without_room: 0,
        digest: 0,
    };
    for c in 0..INSERTS {
        s = insert_of(p, x, c, s);
    }
    s
}

// The line of so many copies of so many nodes.
fn edges(stdout: Stdout, copies: usize, nodes: usize) -> io::Result<()> {
    let p = pattern(copies);
    let x = [0u16, 1, 0, 2, 1, 3];
    let s = inserts(
        front(&p, words_of(steps(copies))),
        front(&x, words_of(nodes)),
    );
    text(stdout, b"id-edges ")?;
    spaced(stdout, copies)?;
    spaced(stdout, nodes)?;
    spaced(stdout, s.calls)?;
    spaced(stdout, s.given)?;
    spaced(stdout, s.without_ids)?;
    spaced(stdout, s.without_room)?;
    eight(stdout, s.digest)?;
    text(stdout, b"\n")
}

// The lines of so many copies.
fn lines_of(stdout: Stdout, copies: usize) -> io::Result<()> {
    edges(stdout, copies, 1)?;
    edges(stdout, copies, 2)?;
    edges(stdout, copies, 3)
}

pub(crate) fn lines(stdout: Stdout) -> io::Result<()> {
    lines_of(stdout, 0)?;
    lines_of(stdout, 1)?;
    lines_of(stdout, 2)?;
    lines_of(stdout, 3)
}
