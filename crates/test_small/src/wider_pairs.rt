// Table 13's pairs: a read and an update by their numbers, with one change that makes them wider, and their verdicts.
use crate::pairs::nodes_of;
use sloefertand::verdicts::{
    sloefertand_deep_delete_verdict, sloefertand_deep_insert_verdict, sloefertand_delete_verdict,
    sloefertand_insert_verdict,
};
use tables::words::word;
use test_parts::numbering::{INSERTED, front, nodes, pair, pattern, tree, words_of};

// A delete has this for the number of its inserted tree.
pub(crate) const NO_TREE: usize = INSERTED;

// What is changed: a word of the read, a word of the update, or the inserted tree.
pub(crate) const READ: usize = 0;

pub(crate) const UPDATE: usize = 1;

pub(crate) const TREE: usize = 2;

// Which of a step's two words.
pub(crate) const AXIS: usize = 0;

pub(crate) const LABEL: usize = 1;

// A place at which no pattern has a word, and no tree a node to come.
pub(crate) const NOWHERE: usize = 6;

// A pair by the numbers of its read's pattern, its update's and its inserted tree.
#[derive(Clone, Copy)]
pub(crate) struct Pair {
    pub(crate) read: usize,
    pub(crate) update: usize,
    pub(crate) tree: usize,
}

// What is changed, and where: a word of the pattern, or the choice of the node to come.
#[derive(Clone, Copy)]
pub(crate) struct Change {
    pub(crate) of: usize,
    pub(crate) at: usize,
}

// The nodes of a smallest witness, 0 for none, and the deep verdict.
#[derive(Clone, Copy)]
pub(crate) struct Verdict {
    pub(crate) nodes: usize,
    pub(crate) deep: bool,
}

fn of_delete(r: &[u16], p: &[u16]) -> Verdict {
    let mut out = [0u16; 10];
    let a = sloefertand_delete_verdict(r, p, &mut out);
    let deep = sloefertand_deep_delete_verdict(r, p);
    Verdict {
        nodes: nodes_of(a),
        deep: deep.first == 1,
    }
}

fn of_insert(r: &[u16], p: &[u16], x: &[u16]) -> Verdict {
    let mut out = [0u16; 10];
    let a = sloefertand_insert_verdict(r, p, x, &mut out);
    let deep = sloefertand_deep_insert_verdict(r, p, x);
    Verdict {
        nodes: nodes_of(a),
        deep: deep.first == 1,
    }
}

// An update with no tree is a delete.
fn of_words(r: &[u16], p: &[u16], x: &[u16]) -> Verdict {
    if x.len() == 0 {
        return of_delete(r, p);
    }
    of_insert(r, p, x)
}

// Whether a word can be wider: a named label, or the axis of a child step.
pub(crate) fn widens(t: &[u16], at: usize) -> bool {
    if t.len() <= at {
        return false;
    }
    if at % 2 == LABEL {
        return word(t, at) != 0;
    }
    word(t, at) == 1
}

// Makes a word wider: the wildcard, or the axis of a descendant step.
pub(crate) fn widen(t: &mut [u16], at: usize, part: usize) {
    if t.len() <= at {
        return;
    }
    if part == LABEL {
        t[at] = 0;
        return;
    }
    t[at] = 2;
}

// Writes pattern k with a word of it wider; its words.
fn steps(k: usize, at: usize, t: &mut [u16]) -> usize {
    let n = pattern(k, t);
    widen(t, at, at % 2);
    n
}

// Writes tree k and the node to come behind it, three labels a parent; its words.
fn grown(k: usize, choice: usize, t: &mut [u16]) -> usize {
    if k == NO_TREE {
        return 0;
    }
    let n = tree(k, t);
    if choice == NOWHERE {
        return n;
    }
    pair(t, n / 2, choice / 3, choice % 3 + 1);
    words_of(n / 2 % 16384 + 1)
}

// Where a change is, if it is of this.
fn place(c: Change, of: usize) -> usize {
    if c.of == of {
        return c.at;
    }
    NOWHERE
}

// The verdict on a pair after a change.
pub(crate) fn judged(q: Pair, c: Change) -> Verdict {
    let mut r = [0u16; 6];
    let mut p = [0u16; 6];
    let mut x = [0u16; 6];
    let n = steps(q.read, place(c, READ), &mut r);
    let m = steps(q.update, place(c, UPDATE), &mut p);
    let l = grown(q.tree, place(c, TREE), &mut x);
    of_words(front(&r, n), front(&p, m), front(&x, l))
}

// Whether word `at` of pattern k can be wider.
fn pattern_widens(k: usize, at: usize) -> bool {
    let mut t = [0u16; 6];
    let n = pattern(k, &mut t);
    widens(front(&t, n), at)
}

// Whether a change is one of this pair: its word can be wider, or the parent is there.
pub(crate) fn possible(q: Pair, c: Change) -> bool {
    if c.of == READ {
        return pattern_widens(q.read, c.at);
    }
    if c.of == UPDATE {
        return pattern_widens(q.update, c.at);
    }
    c.at / 3 < nodes(q.tree)
}
