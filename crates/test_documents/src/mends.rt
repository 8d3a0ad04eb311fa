// Table 14: mending. Here are all small documents with all small marks, and lists of every length: document c of n nodes is tree c / 4^n with label 1, and
// marking c % 4^n.
ghost use Rattle.std.specs.Prelude.{◌≤◌};

use crate::id_orders::answered;
use crate::{large_mends, mend_orders};
use sloefertand::checking::sloefertand_v2_check_document;
use sloefertand::operations::sloefertand_mend;
use std::io;
use std::io::Stdout;
use test_parts::digest::{rows, words};
use test_parts::numbering::{front, front_bytes};
use test_parts::rows::behind;
use test_parts::sums::{Sums, counted, no_calls, show_sums};
use test_parts::tally::{Tally, line, one_more};
use test_parts::wide::front_ids;

// The most nodes of a document, used or not.
const NODES: usize = 5;

// The longest list.
const LIST: usize = 15;

// The next identity.
const NEXT: u32 = 20;

// Lists of fewer words than this are tried on the documents of 4 nodes.
const ROOMS: usize = 14;

// The documents of 4 nodes.
const LARGEST: usize = 1536;

// The words of a list that are lent.
fn list_lent(room: usize) -> usize
    ensures { result ≤ 15 }
{
    if room < LIST {
        return room;
    }
    LIST
}

// One mending more, by its answer, all rows and the list after it. What the sums take as written are those not refused, and as length the changed marks.
fn mended(
    table: &[u16],
    marks: &mut [u8],
    used: usize,
    ids: &[u32],
    next: u32,
    list: &mut [u16],
    s: Sums,
) -> Sums {
    let a = sloefertand_mend(table, marks, used, ids, next, list);
    let told = answered(s.digest, a);
    counted(s, a, words(rows(told, table, marks, ids), list))
}

// The same with a list of so many words.
pub(crate) fn listed(
    table: &[u16],
    marks: &mut [u8],
    used: usize,
    ids: &[u32],
    next: u32,
    room: usize,
    s: Sums,
) -> Sums {
    let mut list = [777u16; LIST];
    let end = list_lent(room);
    mended(table, marks, used, ids, next, &mut list[0..end], s)
}

// 4 to the power of n: the markings of n nodes.
fn power(n: usize) -> usize {
    if n == 0 {
        return 1;
    }
    if n == 1 {
        return 4;
    }
    if n == 2 {
        return 16;
    }
    if n == 3 {
        return 64;
    }
    256
}

// The parent of node v in tree s of n nodes, 7 behind them.
fn parent(n: usize, s: usize, v: usize) -> u16 {
    if n <= v {
        return 7;
    }
    if v == 2 {
        return (s % 2) as u16;
    }
    if v == 3 {
        return (s / 2 % 3) as u16;
    }
    0
}

// Its label.
fn label(n: usize, v: usize) -> u16 {
    if n <= v {
        return 7;
    }
    1
}

// The words of tree s.
fn tree(n: usize, s: usize) -> [u16; 10] {
    [
        parent(n, s, 0),
        label(n, 0),
        parent(n, s, 1),
        label(n, 1),
        parent(n, s, 2),
        label(n, 2),
        parent(n, s, 3),
        label(n, 3),
        parent(n, s, 4),
        label(n, 4),
    ]
}

// The mark of node v in document c, 9 behind the used nodes.
fn mark(n: usize, c: usize, v: usize) -> u8 {
    if n <= v {
        return 9;
    }
    (behind(c, power(v)) % 4) as u8
}

// Its marks.
fn marking(n: usize, c: usize) -> [u8; NODES] {
    [
        mark(n, c, 0),
        mark(n, c, 1),
        mark(n, c, 2),
        mark(n, c, 3),
        mark(n, c, 4),
    ]
}

// The identity of node v, 99999 behind the used nodes.
fn id(n: usize, v: usize, x: u32) -> u32 {
    if n <= v {
        return 99999;
    }
    x
}

// The identities.
fn identities(n: usize) -> [u32; NODES] {
    [id(n, 0, 2), id(n, 1, 4), id(n, 2, 9), id(n, 3, 11), 99999]
}

// The nodes that are lent: the used ones and one more.
fn lent(n: usize) -> usize
    ensures { result ≤ 5 }
{
    if n < NODES {
        return n + 1;
    }
    NODES
}

// Whether document c is sound before any mending.
fn sound(n: usize, c: usize) -> bool {
    let table = tree(n, behind(c, power(n)));
    let marks = marking(n, c);
    let ids = identities(n);
    let end = lent(n);
    let a = sloefertand_v2_check_document(
        front(&table, 2 * end),
        front_bytes(&marks, end),
        n,
        front_ids(&ids, end),
        NEXT,
    );
    a.refusal == 0
}

// How many are.
fn sounds(n: usize, count: usize) -> usize {
    let mut all = 0;
    for c in 0..count {
        all = one_more(all, sound(n, c));
    }
    all
}

// Document c, mended with a list of so many words.
fn document(n: usize, c: usize, room: usize, s: Sums) -> Sums {
    let table = tree(n, behind(c, power(n)));
    let mut marks = marking(n, c);
    let ids = identities(n);
    let end = lent(n);
    listed(
        front(&table, 2 * end),
        &mut marks[0..end],
        n,
        front_ids(&ids, end),
        NEXT,
        room,
        s,
    )
}

// Every document of n nodes, of which there are so many.
fn documents(n: usize, count: usize, room: usize) -> Sums {
    let mut s = no_calls();
    for c in 0..count {
        s = document(n, c, room, s);
    }
    s
}

// The line of n nodes, with a list of two words more than all used nodes need. No mending is refused, so how many documents are sound stands in its place.
fn small_line(stdout: Stdout, n: usize, count: usize) -> io::Result<()> {
    let s = documents(n, count, n % NODES * 3 + 2);
    show_sums(
        stdout,
        b"mends ",
        n,
        Sums {
            calls: s.calls,
            written: sounds(n, count),
            length: s.length,
            last: s.last,
            digest: s.digest,
        },
    )
}

// The line of a list's length.
fn room_line(stdout: Stdout, room: usize) -> io::Result<()> {
    let s = documents(4, LARGEST, room);
    line(
        stdout,
        b"mend-room ",
        room,
        Tally {
            answered: s.calls,
            back: s.written,
            digest: s.digest,
        },
    )
}

// The lines of all lengths.
fn room_lines(stdout: Stdout) -> io::Result<()> {
    for room in 0..ROOMS {
        room_line(stdout, room)?;
    }
    Ok(())
}

pub(crate) fn table(stdout: Stdout) -> io::Result<()> {
    small_line(stdout, 1, 4)?;
    small_line(stdout, 2, 16)?;
    small_line(stdout, 3, 128)?;
    small_line(stdout, 4, LARGEST)?;
    room_lines(stdout)?;
    mend_orders::lines(stdout)?;
    large_mends::lines(stdout)
}
