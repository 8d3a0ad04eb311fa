// Table 8's tree tables: numbered, drawn at random, and damaged.
use crate::numbering::pair;
use crate::rows::{behind, first};
use crate::ways::{before, moved};
use tables::words::{first_word, second_word, word};

// The label of node v: where there is one kind of labels the node's number from 1; of three kinds 1 to 3; of ten the least and the greatest label of each
// number of digits.
fn label(kinds: usize, v: usize, choice: usize) -> usize {
    if kinds == 1 {
        return v % 65535 + 1;
    }
    if kinds == 3 {
        return choice % 3 + 1;
    }
    word(&[1, 9, 10, 99, 100, 999, 1000, 9999, 10000, 65535], choice)
}

// How many parents are right for node v, from 0 on.
fn right_parents(v: usize) -> usize {
    if v == 0 {
        return 1;
    }
    v
}

// Node v, by what is left of the tree's number: its label, then its parent; what is left behind them.
fn numbered_node(kinds: usize, v: usize, rest: usize, t: &mut [u16]) -> usize {
    let parents = right_parents(v);
    let left = behind(rest, kinds);
    pair(
        t,
        v,
        first(left, parents),
        label(kinds, v, first(rest, kinds)),
    );
    behind(left, parents)
}

// Tree k of n nodes with so many kinds of labels.
pub fn numbered(k: usize, kinds: usize, n: usize, t: &mut [u16]) {
    let mut rest = k;
    for v in 0..n {
        rest = numbered_node(kinds, v, rest, t);
    }
}

// The parent of node v in a tree of a shape: two chains, a star, two below each, one of the three before, any before.
pub fn parent(shape: usize, v: usize, x: usize) -> usize {
    if v == 0 {
        return 0;
    }
    if shape < 2 {
        return v - 1;
    }
    if shape == 2 {
        return 0;
    }
    if shape == 3 {
        return (v - 1) / 2;
    }
    if shape == 4 {
        return before(v, x);
    }
    first(x, v)
}

// The label of a node: one number picks the greatest that it may be, the other the label; in the first chain all are the greatest of all.
fn drawn_label(shape: usize, x: usize, y: usize) -> usize {
    if shape == 0 {
        return 65535;
    }
    first(y, word(&[9, 99, 999, 9999, 65535], x % 5)) % 65535 + 1
}

// Node v; the last number drawn.
fn drawn_node(shape: usize, v: usize, s: usize, t: &mut [u16]) -> usize {
    let x = moved(s);
    let y = moved(x);
    let z = moved(y);
    pair(t, v, parent(shape, v, x), drawn_label(shape, y, z));
    z
}

// The tree of a shape with n nodes.
pub fn drawn(shape: usize, n: usize, t: &mut [u16]) {
    let mut s = shape % 6 * 1000 + n % 65536;
    for v in 0..n {
        s = drawn_node(shape, v, s, t);
    }
}

// Damages a tree by a number: one node gets the least parent that is wrong, and one the label 0; each has four places, and a fifth outside the tree.
pub fn damage(k: usize, t: &mut [u16]) {
    let u = k % 5 * 341;
    let kept = second_word(t, u);
    pair(t, u, right_parents(u), kept);
    let v = k / 5 % 5 * 341;
    let above = first_word(t, v);
    pair(t, v, above, 0);
}
