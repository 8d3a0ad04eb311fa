// Numbers drawn at random, and patterns drawn along ways up in a tree.
use crate::numbering::pair;
use tables::words::{first_word, second_word};

// Where the drawing of a pattern has come to: the last number, and the node on the way up.
#[derive(Clone, Copy)]
pub struct Way {
    pub state: usize,
    pub node: usize,
}

// The number after another.
pub fn moved(s: usize) -> usize {
    (s % 65537 * 75 + 74) % 65537
}

// One of six labels, which have bytes in common.
pub fn name(x: usize) -> usize {
    let i = x % 6;
    if i == 0 {
        return 1;
    }
    if i == 1 {
        return 256;
    }
    if i == 2 {
        return 257;
    }
    if i == 3 {
        return 513;
    }
    if i == 4 {
        return 65281;
    }
    65535
}

// One to three nodes before node v, and at least 0.
pub fn before(v: usize, x: usize) -> usize {
    let back = x % 3 + 1;
    if v < back {
        return 0;
    }
    v - back
}

// The axis of step i by a number, that of the second by its node's parent.
fn axis(i: usize, parent: usize, x: usize) -> usize {
    if i == 0 {
        return 0;
    }
    if i == 1 {
        if parent == 0 {
            return 1;
        }
        return 2;
    }
    if x % 4 == 0 {
        return 2;
    }
    1
}

// The label of a step by a number: its own, its node's or the wildcard.
fn label(strange: bool, here: usize, x: usize) -> usize {
    if strange {
        return name(x);
    }
    if x % 6 < 2 {
        return here;
    }
    0
}

// The node of the step before step i.
fn above(i: usize, axis: usize, parent: usize, rows: &[u16]) -> usize {
    if i < 2 {
        return 0;
    }
    if axis == 1 {
        return parent;
    }
    first_word(rows, parent)
}

// Step i.
fn step(i: usize, strange: bool, w: Way, rows: &[u16], p: &mut [u16]) -> Way {
    let first = moved(w.state);
    let second = moved(first);
    let parent = first_word(rows, w.node);
    let a = axis(i, parent, second);
    pair(p, i, a, label(strange, second_word(rows, w.node), first));
    Way {
        state: second,
        node: above(i, a, parent, rows),
    }
}

// The steps from the last to the first, along a way up; one of them may have a label of its own.
pub fn steps(n: usize, strange: usize, way: Way, rows: &[u16], p: &mut [u16]) {
    let mut w = way;
    for i in (0..n).rev() {
        w = step(i, i == strange, w, rows, p);
    }
}
