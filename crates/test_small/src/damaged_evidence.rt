// Table 10, refusals: damaged tables, one at a time and all at once.
use c_answer::answer::Answer;
use sloefertand::evidence::{sloefertand_delete_evidence, sloefertand_insert_evidence};
use std::io;
use std::io::Stdout;
use tables::words::word;
use test_parts::answers::{code, show_answer};
use test_parts::numbering::{front, pair};
use test_parts::show::{eight, spaced, text};
use test_parts::tally::{one_more, told};

// Words of the longest pattern, and of the longest tree.
const STEP_WORDS: usize = 513;

const NODE_WORDS: usize = 2051;

// How many damages a pattern has, and a tree; the first is none.
const PATTERNS: usize = 12;

const TREES: usize = 13;

// A pattern of two steps by its damage: its words, and both axes.
const PATTERN_WORDS: [u16; PATTERNS] = [4, 0, 3, 2, 510, 512, 513, 4, 4, 4, 4, 512];

const FIRST_AXES: [u16; PATTERNS] = [0, 0, 0, 0, 0, 0, 0, 1, 0, 0, 2, 1];

const SECOND_AXES: [u16; PATTERNS] = [2, 2, 2, 2, 2, 2, 2, 2, 0, 3, 3, 2];

// A tree of three nodes by its damage: its words, and the parents and labels of its root and its last node.
const TREE_WORDS: [u16; TREES] = [6, 0, 5, 2048, 2050, 2051, 6, 6, 6, 6, 6, 6, 2050];

const ROOT_PARENTS: [u16; TREES] = [0, 0, 0, 0, 0, 0, 1, 0, 0, 0, 0, 0, 0];

const ROOT_LABELS: [u16; TREES] = [1, 1, 1, 1, 1, 1, 1, 0, 1, 1, 1, 0, 0];

const LAST_PARENTS: [u16; TREES] = [1, 1, 1, 1, 1, 1, 1, 1, 2, 1, 2, 2, 1];

const LAST_LABELS: [u16; TREES] = [1, 1, 1, 1, 1, 1, 1, 1, 1, 0, 0, 1, 1];

// How many calls there were, how many of them were refused, and the digest.
#[derive(Drop)]
struct Sums {
    calls: usize,
    refused: usize,
    digest: u64,
}

// The damages of the four tables.
#[derive(Drop)]
struct Damages {
    read: usize,
    update: usize,
    inserted: usize,
    tree: usize,
}

// The same pair again and again.
fn repeated(first: usize, second: usize, out: &mut [u16]) {
    for v in 0..out.len() {
        pair(out, v, first, second);
    }
}

// The pattern of two steps with these labels and damage d, child steps behind it; its words.
fn pattern(first: usize, second: usize, d: usize, out: &mut [u16]) -> usize {
    repeated(1, 0, out);
    pair(out, 0, word(&FIRST_AXES, d), first);
    pair(out, 1, word(&SECOND_AXES, d), second);
    word(&PATTERN_WORDS, d)
}

// The tree with damage d, children of the root behind it; its words.
fn tree(d: usize, out: &mut [u16]) -> usize {
    repeated(0, 1, out);
    pair(out, 0, word(&ROOT_PARENTS, d), word(&ROOT_LABELS, d));
    pair(out, 1, 0, 2);
    pair(out, 2, word(&LAST_PARENTS, d), word(&LAST_LABELS, d));
    word(&TREE_WORDS, d)
}

// The answer for a delete.
fn deleted(d: Damages) -> Answer {
    let mut r = [0u16; STEP_WORDS];
    let mut p = [0u16; STEP_WORDS];
    let mut t = [0u16; NODE_WORDS];
    let steps = pattern(1, 0, d.read, &mut r);
    let others = pattern(0, 2, d.update, &mut p);
    let nodes = tree(d.tree, &mut t);
    sloefertand_delete_evidence(front(&r, steps), front(&p, others), front(&t, nodes))
}

// The answer for an insert.
fn inserted(d: Damages) -> Answer {
    let mut r = [0u16; STEP_WORDS];
    let mut p = [0u16; STEP_WORDS];
    let mut x = [0u16; NODE_WORDS];
    let mut t = [0u16; NODE_WORDS];
    let steps = pattern(1, 0, d.read, &mut r);
    let others = pattern(0, 2, d.update, &mut p);
    let copied = tree(d.inserted, &mut x);
    let nodes = tree(d.tree, &mut t);
    sloefertand_insert_evidence(
        front(&r, steps),
        front(&p, others),
        front(&x, copied),
        front(&t, nodes),
    )
}

// A damage where a table is the one that has it, else none.
fn at_table(d: usize, table: usize, one: usize) -> usize {
    if table == one {
        return d;
    }
    0
}

// Damage d of one table alone.
fn alone(table: usize, d: usize) -> Damages {
    Damages {
        read: at_table(d, table, 1),
        update: at_table(d, table, 2),
        inserted: at_table(d, table, 3),
        tree: at_table(d, table, 5),
    }
}

// The line of one damage alone.
fn show_alone(stdout: Stdout, name: &[u8], table: usize, d: usize, a: Answer) -> io::Result<()> {
    text(stdout, name)?;
    spaced(stdout, table)?;
    spaced(stdout, d)?;
    show_answer(stdout, code(a))
}

// Every damage of a table alone.
fn deletes_alone(stdout: Stdout, table: usize, count: usize) -> io::Result<()> {
    for d in 0..count {
        show_alone(stdout, b"delete ", table, d, deleted(alone(table, d)))?;
    }
    Ok(())
}

fn inserts_alone(stdout: Stdout, table: usize, count: usize) -> io::Result<()> {
    for d in 0..count {
        show_alone(stdout, b"insert ", table, d, inserted(alone(table, d)))?;
    }
    Ok(())
}

// Before the first call.
fn nothing() -> Sums {
    Sums {
        calls: 0,
        refused: 0,
        digest: 0,
    }
}

// One answer more.
fn called(a: Answer, s: Sums) -> Sums {
    Sums {
        calls: one_more(s.calls, true),
        refused: one_more(s.refused, a.refusal != 0),
        digest: told(s.digest, a),
    }
}

// The damages of a delete by a number.
fn of_delete(r: usize, c: usize) -> Damages {
    Damages {
        read: r,
        update: c / TREES,
        inserted: 0,
        tree: c % TREES,
    }
}

// Every delete with a damage of the read.
fn deletes(r: usize) -> Sums {
    let mut s = nothing();
    for c in 0..156 {
        s = called(deleted(of_delete(r, c)), s);
    }
    s
}

// The damages of an insert by a number.
fn of_insert(r: usize, c: usize) -> Damages {
    Damages {
        read: r,
        update: c / 169,
        inserted: c / TREES % TREES,
        tree: c % TREES,
    }
}

// Every insert with a damage of the read.
fn inserts(r: usize) -> Sums {
    let mut s = nothing();
    for c in 0..2028 {
        s = called(inserted(of_insert(r, c)), s);
    }
    s
}

fn line(stdout: Stdout, name: &[u8], r: usize, s: Sums) -> io::Result<()> {
    text(stdout, name)?;
    spaced(stdout, r)?;
    spaced(stdout, s.calls)?;
    spaced(stdout, s.refused)?;
    eight(stdout, s.digest)?;
    text(stdout, b"\n")
}

fn delete_lines(stdout: Stdout) -> io::Result<()> {
    for r in 0..PATTERNS {
        line(stdout, b"damaged-delete ", r, deletes(r))?;
    }
    Ok(())
}

fn insert_lines(stdout: Stdout) -> io::Result<()> {
    for r in 0..PATTERNS {
        line(stdout, b"damaged-insert ", r, inserts(r))?;
    }
    Ok(())
}

pub(crate) fn lines(stdout: Stdout) -> io::Result<()> {
    deletes_alone(stdout, 1, PATTERNS)?;
    deletes_alone(stdout, 2, PATTERNS)?;
    deletes_alone(stdout, 5, TREES)?;
    inserts_alone(stdout, 1, PATTERNS)?;
    inserts_alone(stdout, 2, PATTERNS)?;
    inserts_alone(stdout, 3, TREES)?;
    inserts_alone(stdout, 5, TREES)?;
    delete_lines(stdout)?;
    insert_lines(stdout)
}
