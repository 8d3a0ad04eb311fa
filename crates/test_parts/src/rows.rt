// Rows of bytes or words by number, the first element changing fastest.
use tables::words::{byte, word};

// A row's number behind its first element.
pub fn behind(k: usize, kinds: usize) -> usize {
    if kinds == 0 {
        return 0;
    }
    k / kinds
}

// Its first element, as a number below the kinds.
pub fn first(k: usize, kinds: usize) -> usize {
    if kinds == 0 {
        return 0;
    }
    k % kinds
}

// Row k of bytes, as many as there is room for.
pub fn bytes(k: usize, alphabet: &[u8], row: &mut [u8]) {
    let mut rest = k;
    for i in 0..row.len() {
        row[i] = (byte(alphabet, first(rest, alphabet.len())) % 256) as u8;
        rest = behind(rest, alphabet.len());
    }
}

// Row k of words from 0 on, as many as there is room for.
pub fn words(k: usize, kinds: usize, row: &mut [u16]) {
    let mut rest = k;
    for i in 0..row.len() {
        row[i] = (first(rest, kinds) % 65536) as u16;
        rest = behind(rest, kinds);
    }
}

// Whether two rows of words are the same.
pub fn same_words(a: &[u16], b: &[u16]) -> bool {
    if a.len() != b.len() {
        return false;
    }
    for i in 0..a.len() {
        if word(a, i) != word(b, i) {
            return false;
        }
    }
    true
}
