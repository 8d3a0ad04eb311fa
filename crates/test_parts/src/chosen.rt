// What a read selects, by its answer row.
use crate::digest::{halves, taken};
use crate::wide::id;
use tables::words::byte;

// The sum of some bytes and a number.
pub fn sum(n: usize, m: &[u8]) -> usize {
    let mut all = n;
    for i in 0..m.len() {
        all = all % 16777216 + byte(m, i) % 256;
    }
    all
}

// The identity at i, if that node is selected.
fn one(d: u64, row: &[u8], ids: &[u32], i: usize) -> u64 {
    if byte(row, i) != 1 {
        return d;
    }
    halves(d, id(ids, i))
}

// How many nodes are selected, and their identities.
pub fn chosen(d: u64, row: &[u8], ids: &[u32]) -> u64 {
    let mut all = taken(d, sum(0, row));
    for i in 0..row.len() {
        all = one(all, row, ids, i);
    }
    all
}
