// Table 13: wider never means safer. Here pairs before and after a single change: a named label becomes the wildcard, a child step a descendant step, or the inserted tree gets one node more behind its last.
use crate::wider_pairs::{
    AXIS, Change, LABEL, NO_TREE, NOWHERE, Pair, READ, TREE, UPDATE, Verdict, judged, possible,
};
use crate::wider_plans;
use std::io;
use std::io::Stdout;
use test_parts::digest::taken;
use test_parts::numbering::{PATTERNS, SINGLE};
use test_parts::show::{eight, spaced, text};
use test_parts::tally::one_more;

// Inserted trees of at most two nodes come first.
const SMALL: usize = 12;

// The most steps, and the most ways to hang a node behind a small tree.
const STEPS: usize = 3;

const HANGS: usize = 6;

// What a line changes.
#[derive(Clone, Copy)]
struct Kind {
    of: usize,
    part: usize,
}

// For how many changes there is a yes before and after, after only, and before only.
#[derive(Drop)]
struct Kept {
    both: usize,
    new: usize,
    lost: usize,
}

// What the changes of a line do.
#[derive(Drop)]
struct Sums {
    tried: usize,
    node: Kept,
    smaller: usize,
    larger: usize,
    deep: Kept,
    digest: u64,
}

fn counted(k: Kept, narrow: bool, wider: bool) -> Kept {
    if narrow {
        return Kept {
            both: one_more(k.both, wider),
            new: k.new,
            lost: one_more(k.lost, !wider),
        };
    }
    Kept {
        both: k.both,
        new: one_more(k.new, wider),
        lost: k.lost,
    }
}

// Whether a witness of n nodes is there, and has fewer than m.
fn fewer(n: usize, m: usize) -> bool {
    if n == 0 {
        return false;
    }
    n < m
}

// The verdicts before and after a change.
fn digested(d: u64, n: Verdict, w: Verdict) -> u64 {
    let first = taken(taken(d, n.nodes), w.nodes);
    taken(taken(first, one_more(0, n.deep)), one_more(0, w.deep))
}

// One change more.
fn compared(n: Verdict, w: Verdict, s: Sums) -> Sums {
    Sums {
        tried: one_more(s.tried, true),
        node: counted(s.node, 0 < n.nodes, 0 < w.nodes),
        smaller: one_more(s.smaller, fewer(w.nodes, n.nodes)),
        larger: one_more(s.larger, fewer(n.nodes, w.nodes)),
        deep: counted(s.deep, n.deep, w.deep),
        digest: digested(s.digest, n, w),
    }
}

// The same, if the change is one of this pair.
fn changed(q: Pair, c: Change, n: Verdict, s: Sums) -> Sums {
    if !possible(q, c) {
        return s;
    }
    compared(n, judged(q, c), s)
}

// The axis or the label of step i.
fn at(i: usize, part: usize) -> usize {
    i % STEPS * 2 + part % 2
}

// Every step.
fn each_step(q: Pair, kind: Kind, n: Verdict, sums: Sums) -> Sums {
    let mut s = sums;
    for i in 0..STEPS {
        s = changed(
            q,
            Change {
                of: kind.of,
                at: at(i, kind.part),
            },
            n,
            s,
        );
    }
    s
}

// Every node to come.
fn each_node(q: Pair, n: Verdict, sums: Sums) -> Sums {
    let mut s = sums;
    for choice in 0..HANGS {
        s = changed(
            q,
            Change {
                of: TREE,
                at: choice,
            },
            n,
            s,
        );
    }
    s
}

// Every change of a pair.
fn of_pair(q: Pair, kind: Kind, s: Sums) -> Sums {
    let narrow = judged(
        q,
        Change {
            of: READ,
            at: NOWHERE,
        },
    );
    if kind.of == TREE {
        return each_node(q, narrow, s);
    }
    each_step(q, kind, narrow, s)
}

// An update with every read.
fn reads(update: usize, tree: usize, kind: Kind, sums: Sums) -> Sums {
    let mut s = sums;
    for read in 0..PATTERNS {
        s = of_pair(Pair { read, update, tree }, kind, s);
    }
    s
}

// Every delete.
fn deletes(kind: Kind) -> Sums {
    let mut s = nothing();
    for update in SINGLE..PATTERNS {
        s = reads(update, NO_TREE, kind, s);
    }
    s
}

// Every insert at a pattern.
fn trees(update: usize, kind: Kind, sums: Sums) -> Sums {
    let mut s = sums;
    for tree in 0..SMALL {
        s = reads(update, tree, kind, s);
    }
    s
}

// Every insert.
fn inserts(kind: Kind) -> Sums {
    let mut s = nothing();
    for update in 0..PATTERNS {
        s = trees(update, kind, s);
    }
    s
}

fn no_change() -> Kept {
    Kept {
        both: 0,
        new: 0,
        lost: 0,
    }
}

fn nothing() -> Sums {
    Sums {
        tried: 0,
        node: no_change(),
        smaller: 0,
        larger: 0,
        deep: no_change(),
        digest: 0,
    }
}

fn show_kept(stdout: Stdout, k: Kept) -> io::Result<()> {
    spaced(stdout, k.both)?;
    spaced(stdout, k.new)?;
    spaced(stdout, k.lost)
}

fn show(stdout: Stdout, s: Sums) -> io::Result<()> {
    spaced(stdout, s.tried)?;
    show_kept(stdout, s.node)?;
    spaced(stdout, s.smaller)?;
    spaced(stdout, s.larger)?;
    show_kept(stdout, s.deep)?;
    eight(stdout, s.digest)?;
    text(stdout, b"\n")
}

fn delete_line(stdout: Stdout, name: &[u8], kind: Kind) -> io::Result<()> {
    text(stdout, b"wider ")?;
    text(stdout, name)?;
    text(stdout, b" delete ")?;
    show(stdout, deletes(kind))
}

fn insert_line(stdout: Stdout, name: &[u8], kind: Kind) -> io::Result<()> {
    text(stdout, b"wider ")?;
    text(stdout, name)?;
    text(stdout, b" insert ")?;
    show(stdout, inserts(kind))
}

fn lines(stdout: Stdout, name: &[u8], of: usize, part: usize) -> io::Result<()> {
    delete_line(stdout, name, Kind { of, part })?;
    insert_line(stdout, name, Kind { of, part })
}

pub(crate) fn table(stdout: Stdout) -> io::Result<()> {
    lines(stdout, b"read-label", READ, LABEL)?;
    lines(stdout, b"read-axis", READ, AXIS)?;
    lines(stdout, b"update-label", UPDATE, LABEL)?;
    lines(stdout, b"update-axis", UPDATE, AXIS)?;
    insert_line(
        stdout,
        b"tree",
        Kind {
            of: TREE,
            part: AXIS,
        },
    )?;
    wider_plans::lines(stdout)
}
