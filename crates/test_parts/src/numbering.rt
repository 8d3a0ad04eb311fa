// Small patterns and trees by number.

// Patterns of 1 to 3 steps with labels 0, 1, 2.
pub const PATTERNS: usize = 129;

// Those of 1 step come first.
pub const SINGLE: usize = 3;

// Inserted trees: 1 to 3 nodes with labels 1, 2, 3.
pub const INSERTED: usize = 66;

// Trees of 1 to 4 nodes with the same labels, the inserted trees first.
pub const TREES: usize = 552;

// Writes a pair of words, if there is room for it.
pub fn pair(t: &mut [u16], v: usize, first: usize, second: usize) {
    if t.len() / 2 <= v {
        return;
    }
    t[2 * v] = (first % 65536) as u16;
    t[2 * v + 1] = (second % 65536) as u16;
}

// The first n words, none where there are fewer.
pub fn front(t: &[u16], n: usize) -> &[u16] {
    if t.len() < n {
        return &t[0..0];
    }
    &t[0..n]
}

// The first n bytes, none where there are fewer.
pub fn front_bytes(m: &[u8], n: usize) -> &[u8] {
    if m.len() < n {
        return &m[0..0];
    }
    &m[0..n]
}

// The steps of pattern k.
fn steps(k: usize) -> usize {
    if k < 3 {
        return 1;
    }
    if k < 21 {
        return 2;
    }
    3
}

// Its number among the patterns of as many steps.
fn pattern_code(k: usize) -> usize {
    if k < 3 {
        return k;
    }
    if k < 21 {
        return k - 3;
    }
    k - 21
}

// Writes pattern k; its words.
pub fn pattern(k: usize, t: &mut [u16]) -> usize {
    let code = pattern_code(k);
    let second = code / 3 % 6;
    let third = code / 18 % 6;
    pair(t, 0, 0, code % 3);
    pair(t, 1, second / 3 + 1, second % 3);
    pair(t, 2, third / 3 + 1, third % 3);
    words_of(steps(k))
}

// Two words a step or node.
pub fn words_of(n: usize) -> usize {
    n % 16384 * 2
}

// The nodes of tree k.
pub fn nodes(k: usize) -> usize {
    if k < 3 {
        return 1;
    }
    if k < 12 {
        return 2;
    }
    if k < 66 {
        return 3;
    }
    4
}

// Its number among the trees of as many nodes.
pub fn tree_code(k: usize) -> usize {
    if k < 3 {
        return k;
    }
    if k < 12 {
        return k - 3;
    }
    if k < 66 {
        return k - 12;
    }
    k - 66
}

// A node by its choice: three labels a parent.
fn node(t: &mut [u16], v: usize, choice: usize) {
    pair(t, v, choice / 3, choice % 3 + 1);
}

// Clears the words.
fn cleared(t: &mut [u16]) {
    for i in 0..t.len() {
        t[i] = 0;
    }
}

// The same, in a tree that has it.
fn node_of(t: &mut [u16], n: usize, v: usize, choice: usize) {
    if n <= v {
        return;
    }
    node(t, v, choice);
}

// Writes tree k at the front, 0 behind it; its words.
pub fn tree(k: usize, t: &mut [u16]) -> usize {
    let code = tree_code(k);
    let n = nodes(k);
    cleared(t);
    node(t, 0, code % 3);
    node_of(t, n, 1, code / 3 % 3);
    node_of(t, n, 2, code / 9 % 6);
    node_of(t, n, 3, code / 54 % 9);
    words_of(n)
}
