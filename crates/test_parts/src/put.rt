// Bytes put together to a text, as far as there is room.
use crate::numbering::front_bytes;

// A byte behind those written, if there is room.
pub fn put(out: &mut [u8], at: usize, b: u8) -> usize {
    if out.len() <= at {
        return at;
    }
    out[at] = b;
    at + 1
}

// All of some bytes.
pub fn put_all(out: &mut [u8], at: usize, s: &[u8]) -> usize {
    let mut end = at;
    for i in 0..s.len() {
        end = put(out, end, s[i]);
    }
    end
}

// The bytes behind the first n and one more, none where there are fewer.
fn behind_one(s: &[u8], n: usize) -> &[u8] {
    if s.len() <= n {
        return &s[0..0];
    }
    &s[n + 1..]
}

// A text with others for the byte at a place, or behind it.
pub fn put_instead(out: &mut [u8], s: &[u8], at: usize, others: &[u8]) -> usize {
    let first = put_all(out, 0, front_bytes(s, at));
    let second = put_all(out, first, others);
    put_all(out, second, behind_one(s, at))
}
