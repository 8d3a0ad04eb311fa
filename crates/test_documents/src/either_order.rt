// Table 6: two deletes, one after the other, in either order on every small document.
use crate::documents::{identities, marking, marking_count, next, places, room, sound};
use check::same;
use sloefertand::operations::sloefertand_v2_delete;
use std::io;
use std::io::Stdout;
use test_parts::digest::bytes;
use test_parts::numbering::{SINGLE, TREES, front, nodes, pattern, tree};
use test_parts::show::{eight, spaced, text};
use test_parts::tally::{one_more, told};
use test_parts::wide::front_ids;

// Deletes of two steps.
const DELETES: usize = 18;

// A first one with a second one.
const PAIRS: usize = 324;

// What two deletes report, and the digest with both and the marks after them.
#[derive(Drop)]
struct Reports {
    first: usize,
    second: usize,
    digest: u64,
}

// How many pairs there are, and for how many of them both orders agree: in the marks, in both numbers together, in each number alone.
#[derive(Drop)]
struct Sums {
    pairs: usize,
    marks: usize,
    totals: usize,
    each: usize,
    digest: u64,
}

// One delete and then another.
fn both(
    p: &[u16],
    q: &[u16],
    rows: &[u16],
    marks: &mut [u8],
    used: usize,
    ids: &[u32],
    next: u32,
    d: u64,
) -> Reports {
    let a = sloefertand_v2_delete(p, rows, marks, used, ids, next);
    let b = sloefertand_v2_delete(q, rows, marks, used, ids, next);
    Reports {
        first: a.first % 65536,
        second: b.first % 65536,
        digest: bytes(told(told(d, a), b), marks),
    }
}

// Whether four numbers are two and the same two the other way round.
fn crossed(a: usize, b: usize, c: usize, d: usize) -> bool {
    if a != d {
        return false;
    }
    b == c
}

// One pair more.
fn summed(s: Sums, marks: bool, one: Reports, other: Reports) -> Sums {
    Sums {
        pairs: one_more(s.pairs, true),
        marks: one_more(s.marks, marks),
        totals: one_more(
            s.totals,
            one.first % 65536 + one.second % 65536 == other.first % 65536 + other.second % 65536,
        ),
        each: one_more(
            s.each,
            crossed(one.first, one.second, other.first, other.second),
        ),
        digest: other.digest,
    }
}

// Both orders, each on its own row of the same marks.
fn compared(
    p: &[u16],
    q: &[u16],
    rows: &[u16],
    here: &mut [u8],
    there: &mut [u8],
    used: usize,
    ids: &[u32],
    next: u32,
    s: Sums,
) -> Sums {
    let one = both(p, q, rows, here, used, ids, next, s.digest);
    let other = both(q, p, rows, there, used, ids, next, one.digest);
    summed(s, same(here, there), one, other)
}

// The same on a document.
fn orders(p: &[u16], q: &[u16], t: usize, m: usize, s: Sums) -> Sums {
    let mut table = [0u16; 16];
    tree(t, &mut table);
    let mut here = marking(t, m);
    let mut there = marking(t, m);
    let ids = identities(t, m);
    let n = room(t);
    compared(
        p,
        q,
        front(&table, 2 * n),
        &mut here[0..n],
        &mut there[0..n],
        nodes(t),
        front_ids(&ids, places(t, m)),
        next(t, m),
        s,
    )
}

// Pair c, if its first delete is not behind its second.
fn pair(c: usize, t: usize, m: usize, s: Sums) -> Sums {
    let first = c % DELETES;
    let second = c / DELETES % DELETES;
    if second < first {
        return s;
    }
    let mut p = [0u16; 6];
    let mut q = [0u16; 6];
    let n = pattern(SINGLE + first, &mut p);
    let k = pattern(SINGLE + second, &mut q);
    orders(front(&p, n), front(&q, k), t, m, s)
}

// Every pair, if the marking is sound.
fn pairs(t: usize, m: usize, s: Sums) -> Sums {
    if !sound(t, m) {
        return s;
    }
    let mut sums = s;
    for c in 0..PAIRS {
        sums = pair(c, t, m, sums);
    }
    sums
}

// On the tree with every marking.
fn markings(t: usize, count: usize, s: Sums) -> Sums {
    let mut sums = s;
    for m in 0..count {
        sums = pairs(t, m, sums);
    }
    sums
}

// On the documents of the trees from one number up to another.
fn documents(from: usize, to: usize) -> Sums {
    let mut sums = Sums {
        pairs: 0,
        marks: 0,
        totals: 0,
        each: 0,
        digest: 0,
    };
    for t in from..to {
        sums = markings(t, marking_count(t), sums);
    }
    sums
}

// The line of the documents of so many nodes, by the numbers of their trees.
fn line_of(stdout: Stdout, nodes: usize, from: usize, to: usize) -> io::Result<()> {
    let t = documents(from, to);
    text(stdout, b"deletes ")?;
    spaced(stdout, nodes)?;
    spaced(stdout, t.pairs)?;
    spaced(stdout, t.marks)?;
    spaced(stdout, t.totals)?;
    spaced(stdout, t.each)?;
    eight(stdout, t.digest)?;
    text(stdout, b"\n")
}

pub(crate) fn table(stdout: Stdout) -> io::Result<()> {
    line_of(stdout, 1, 0, 3)?;
    line_of(stdout, 2, 3, 12)?;
    line_of(stdout, 3, 12, 66)?;
    line_of(stdout, 4, 66, TREES)
}
