// Documents of 1,024 nodes, drawn at random, all used and without room behind them.
use tables::words::byte;
use test_parts::numbering::pair;
use test_parts::put::put;
use test_parts::rows::first;
use test_parts::ways::{before, moved, name};
use test_parts::wide::{narrowed, put_id};

// Nodes of a document.
pub(crate) const NODES: usize = 1024;

// Words of its table.
pub(crate) const WORDS: usize = 2048;

// The parent of node v of document d, by a number: in a bushy one any before it.
fn parent(d: usize, v: usize, x: usize) -> usize {
    if d < 8 {
        return before(v, x);
    }
    first(x, v)
}

// The mark of node v of document d, by its parent's and a number.
fn mark(d: usize, v: usize, above: usize, x: usize) -> u8 {
    if above == 1 {
        return 1;
    }
    if d < 4 {
        return 0;
    }
    if 8 <= d {
        return (x % 8 == 0) as u8;
    }
    if v < 512 {
        return 0;
    }
    (x % 32 == 0) as u8
}

// Node v; the last number drawn.
fn node(d: usize, v: usize, s: usize, rows: &mut [u16], marks: &mut [u8]) -> usize {
    let first = moved(s);
    let second = moved(first);
    let third = moved(second);
    let above = parent(d, v, first);
    pair(rows, v, above, name(second));
    put(marks, v, mark(d, v, byte(marks, above), third));
    third
}

// Document d.
pub(crate) fn document(d: usize, rows: &mut [u16], marks: &mut [u8]) {
    pair(rows, 0, 0, 1);
    let mut s = d;
    for v in 1..NODES {
        s = node(d, v, s, rows, marks);
    }
}

// Its identities.
pub(crate) fn identities(d: usize, ids: &mut [u32]) {
    for v in 0..NODES {
        put_id(ids, v, narrowed(v * 4000000 + d % 16));
    }
}

// Its next identity.
pub(crate) fn next(d: usize) -> u32 {
    narrowed(4096000000 + d % 16)
}
