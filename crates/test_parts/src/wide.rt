// Identities: 32-bit numbers.

// An identity as a number.
pub fn number(x: u32) -> usize {
    x as usize
}

// The identity at i, 0 outside the row.
pub fn id(t: &[u32], i: usize) -> usize {
    if i < t.len() {
        return number(t[i]);
    }
    0
}

// Writes an identity, if there is room for it.
pub fn put_id(t: &mut [u32], i: usize, x: u32) {
    if t.len() <= i {
        return;
    }
    t[i] = x;
}

// The first n identities, none where there are fewer.
pub fn front_ids(t: &[u32], n: usize) -> &[u32] {
    if t.len() < n {
        return &t[0..0];
    }
    &t[0..n]
}

// A number of 32 bits or fewer as an identity.
pub fn narrowed(x: usize) -> u32 {
    (x % 4294967296) as u32
}
