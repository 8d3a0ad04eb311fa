// Table 2: every read, delete, insert and compaction on every small document.
use crate::documents::{ROOM, identities, marking, marking_count, next, places, room, sound};
use crate::operations::{compacted, deleted, inserted, kept, later, read};
use std::io;
use std::io::Stdout;
use test_parts::numbering::{INSERTED, PATTERNS, TREES, front, front_bytes, nodes, pattern, tree};
use test_parts::show::{eight, text};
use test_parts::wide::front_ids;

// p as a read.
fn read_by(p: &[u16], t: usize, m: usize, d: u64) -> u64 {
    let mut table = [0u16; 16];
    tree(t, &mut table);
    let marks = marking(t, m);
    let ids = identities(t, m);
    let n = room(t);
    let mut row = [0u8; ROOM];
    read(
        p,
        front(&table, 2 * n),
        front_bytes(&marks, n),
        nodes(t),
        front_ids(&ids, places(t, m)),
        next(t, m),
        &mut row,
        d,
    )
}

// p as a delete.
fn delete_by(p: &[u16], t: usize, m: usize, d: u64) -> u64 {
    let mut table = [0u16; 16];
    tree(t, &mut table);
    let mut marks = marking(t, m);
    let ids = identities(t, m);
    let n = room(t);
    deleted(
        p,
        front(&table, 2 * n),
        &mut marks[0..n],
        nodes(t),
        front_ids(&ids, places(t, m)),
        next(t, m),
        d,
    )
}

// x inserted at p.
fn insert_by(p: &[u16], x: &[u16], t: usize, m: usize, d: u64) -> u64 {
    let mut table = [0u16; 16];
    tree(t, &mut table);
    let mut marks = marking(t, m);
    let mut ids = identities(t, m);
    let n = room(t);
    let end = 2 * n;
    let last = places(t, m);
    inserted(
        p,
        x,
        &mut table[0..end],
        &mut marks[0..n],
        nodes(t),
        &mut ids[0..last],
        next(t, m),
        d,
    )
}

// The compaction.
fn compaction(t: usize, m: usize) -> u64 {
    let mut table = [0u16; 16];
    tree(t, &mut table);
    let mut marks = marking(t, m);
    let mut ids = identities(t, m);
    let n = room(t);
    let end = 2 * n;
    let last = places(t, m);
    compacted(
        &mut table[0..end],
        &mut marks[0..n],
        nodes(t),
        &mut ids[0..last],
        next(t, m),
        0,
    )
}

// p as a read after the compaction.
fn kept_by(p: &[u16], t: usize, m: usize, d: u64) -> u64 {
    let mut table = [0u16; 16];
    tree(t, &mut table);
    let mut marks = marking(t, m);
    let mut ids = identities(t, m);
    let n = room(t);
    let end = 2 * n;
    let last = places(t, m);
    let mut row = [0u8; ROOM];
    kept(
        p,
        &mut table[0..end],
        &mut marks[0..n],
        nodes(t),
        &mut ids[0..last],
        next(t, m),
        &mut row,
        d,
    )
}

// x inserted at p after the compaction.
fn later_by(p: &[u16], x: &[u16], t: usize, m: usize, d: u64) -> u64 {
    let mut table = [0u16; 16];
    tree(t, &mut table);
    let mut marks = marking(t, m);
    let mut ids = identities(t, m);
    let n = room(t);
    let end = 2 * n;
    let last = places(t, m);
    later(
        p,
        x,
        &mut table[0..end],
        &mut marks[0..n],
        nodes(t),
        &mut ids[0..last],
        next(t, m),
        d,
    )
}

// Tree x at p.
fn insert_of(p: &[u16], x: usize, t: usize, m: usize, d: u64) -> u64 {
    let mut copied = [0u16; 6];
    let n = tree(x, &mut copied);
    insert_by(p, front(&copied, n), t, m, d)
}

// Every tree at p.
fn inserts_at(p: &[u16], t: usize, m: usize, d: u64) -> u64 {
    let mut sum = d;
    for x in 0..INSERTED {
        sum = insert_of(p, x, t, m, sum);
    }
    sum
}

// Tree x at p after the compaction.
fn later_of(p: &[u16], x: usize, t: usize, m: usize, d: u64) -> u64 {
    let mut copied = [0u16; 6];
    let n = tree(x, &mut copied);
    later_by(p, front(&copied, n), t, m, d)
}

// Pattern k in one of its uses: 0 a read, 1 a delete, 2 every insert, 3 a read after the compaction, else an insert after it.
fn use_of(way: usize, k: usize, t: usize, m: usize, d: u64) -> u64 {
    let mut steps = [0u16; 6];
    let n = pattern(k, &mut steps);
    let p = front(&steps, n);
    if way == 0 {
        return read_by(p, t, m, d);
    }
    if way == 1 {
        return delete_by(p, t, m, d);
    }
    if way == 2 {
        return inserts_at(p, t, m, d);
    }
    if way == 3 {
        return kept_by(p, t, m, d);
    }
    later_of(p, k % INSERTED, t, m, d)
}

// Every pattern in one of its uses.
fn uses(way: usize, t: usize, m: usize) -> u64 {
    let mut d = 0;
    for k in 0..PATTERNS {
        d = use_of(way, k, t, m, d);
    }
    d
}

// Every insert, on documents of at most 3 nodes.
fn inserts(t: usize, m: usize) -> u64 {
    if 3 < nodes(t) {
        return 0;
    }
    uses(2, t, m)
}

// A document's line, if its marking is sound.
fn line(stdout: Stdout, t: usize, m: usize) -> io::Result<()> {
    if !sound(t, m) {
        return Ok(());
    }
    eight(stdout, uses(0, t, m))?;
    text(stdout, b" ")?;
    eight(stdout, uses(1, t, m))?;
    text(stdout, b" ")?;
    eight(stdout, inserts(t, m))?;
    text(stdout, b" ")?;
    eight(stdout, compaction(t, m))?;
    text(stdout, b" ")?;
    eight(stdout, uses(3, t, m))?;
    text(stdout, b" ")?;
    eight(stdout, uses(4, t, m))?;
    text(stdout, b"\n")
}

// Every marking.
fn markings(stdout: Stdout, t: usize, count: usize) -> io::Result<()> {
    for m in 0..count {
        line(stdout, t, m)?;
    }
    Ok(())
}

pub(crate) fn table(stdout: Stdout) -> io::Result<()> {
    for t in 0..TREES {
        markings(stdout, t, marking_count(t))?;
    }
    Ok(())
}
