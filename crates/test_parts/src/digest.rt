// A digest of numbers: a difference in any of them shows.
use crate::wide::id;
use c_answer::answer::Answer;
use tables::words::{byte, word};

const MODULUS: u64 = 4294967291;

// One number more.
pub fn taken(d: u64, x: usize) -> u64 {
    (d % MODULUS * 65599 + (x % 65536) as u64 + 1) % MODULUS
}

// Each of some words.
pub fn words(d: u64, t: &[u16]) -> u64 {
    let mut sum = d;
    for i in 0..t.len() {
        sum = taken(sum, word(t, i));
    }
    sum
}

// Each of some bytes.
pub fn bytes(d: u64, m: &[u8]) -> u64 {
    let mut sum = d;
    for i in 0..m.len() {
        sum = taken(sum, byte(m, i));
    }
    sum
}

// A number of 32 bits, its upper half and then its lower.
pub fn halves(d: u64, x: usize) -> u64 {
    taken(taken(d, x / 65536), x % 65536)
}

// Each of some identities.
pub fn ids(d: u64, t: &[u32]) -> u64 {
    let mut sum = d;
    for i in 0..t.len() {
        sum = halves(sum, id(t, i));
    }
    sum
}

// All rows of a document.
pub fn rows(d: u64, table: &[u16], marks: &[u8], row: &[u32]) -> u64 {
    ids(bytes(words(d, table), marks), row)
}

// A refusal, told from a count.
pub fn refusal(d: u64, a: Answer) -> u64 {
    let number = a.refusal % 100;
    taken(taken(taken(d, 100 + number), a.table), a.place)
}
