// Table 10: the first node that is lost or new on a proposed tree. First all small trees, with some updates and reads, and with updates drawn for each read.
use crate::{damaged_evidence, large_evidence};
use c_answer::answer::Answer;
use sloefertand::evidence::{sloefertand_delete_evidence, sloefertand_insert_evidence};
use std::io;
use std::io::Stdout;
use tables::words::word;
use test_parts::numbering::{INSERTED, PATTERNS, SINGLE, TREES, front, pattern, tree};
use test_parts::show::{digit, eight, spaced, text};
use test_parts::tally::{one_more, told};
use test_parts::ways::moved;

// How many reads small trees have, and how many deletes and inserts.
const READS: usize = 12;

const DELETES: usize = 6;

const INSERTS: usize = 10;

// The reads by their numbers, and the deletes.
const READ_PATTERNS: [u16; READS] = [3, 6, 12, 18, 16, 24, 57, 114, 69, 123, 102, 50];

const DELETE_PATTERNS: [u16; DELETES] = [9, 15, 24, 48, 19, 75];

// The inserts by the numbers of their patterns and of their trees.
const INSERT_PATTERNS: [u16; INSERTS] = [0, 0, 3, 6, 12, 12, 18, 15, 33, 13];

const INSERT_TREES: [u16; INSERTS] = [1, 50, 0, 1, 4, 17, 0, 6, 1, 5];

// Where the drawing has come to, how many calls there were, how many of them found a node, and the digest.
#[derive(Drop)]
struct Sums {
    state: usize,
    calls: usize,
    yes: usize,
    digest: u64,
}

// A node's number as a digit; nothing here is refused.
fn sign(a: Answer) -> u8 {
    if a.refusal != 0 {
        return b'?';
    }
    if 15 < a.first {
        return b'?';
    }
    digit(a.first as u64)
}

// The sign of a read and an update; one with no tree is a delete.
fn of_read(r: &[u16], p: &[u16], x: &[u16], t: &[u16]) -> u8 {
    if x.len() == 0 {
        return sign(sloefertand_delete_evidence(r, p, t));
    }
    sign(sloefertand_insert_evidence(r, p, x, t))
}

// The same of read k.
fn of_pair(k: usize, p: &[u16], x: &[u16], t: &[u16]) -> u8 {
    let mut words = [0u16; 6];
    let n = pattern(word(&READ_PATTERNS, k), &mut words);
    of_read(front(&words, n), p, x, t)
}

// An update against every read.
fn signs(p: &[u16], x: &[u16], t: &[u16]) -> [u8; READS] {
    let mut row = [0u8; READS];
    for k in 0..READS {
        row[k] = of_pair(k, p, x, t);
    }
    row
}

fn show_signs(stdout: Stdout, p: &[u16], x: &[u16], t: &[u16]) -> io::Result<()> {
    let row = signs(p, x, t);
    text(stdout, &row)
}

// Delete k.
fn delete_of(stdout: Stdout, k: usize, t: &[u16]) -> io::Result<()> {
    let mut words = [0u16; 6];
    let n = pattern(word(&DELETE_PATTERNS, k), &mut words);
    show_signs(stdout, front(&words, n), &[], t)
}

fn deletes(stdout: Stdout, t: &[u16]) -> io::Result<()> {
    for k in 0..DELETES {
        delete_of(stdout, k, t)?;
    }
    Ok(())
}

// Insert k.
fn insert_of(stdout: Stdout, k: usize, t: &[u16]) -> io::Result<()> {
    let mut words = [0u16; 6];
    let mut copied = [0u16; 6];
    let n = pattern(word(&INSERT_PATTERNS, k), &mut words);
    let m = tree(word(&INSERT_TREES, k), &mut copied);
    show_signs(stdout, front(&words, n), front(&copied, m), t)
}

fn inserts(stdout: Stdout, t: &[u16]) -> io::Result<()> {
    for k in 0..INSERTS {
        insert_of(stdout, k, t)?;
    }
    Ok(())
}

// The line of tree k.
fn tree_line(stdout: Stdout, k: usize) -> io::Result<()> {
    let mut words = [0u16; 8];
    let n = tree(k, &mut words);
    deletes(stdout, front(&words, n))?;
    inserts(stdout, front(&words, n))?;
    text(stdout, b"\n")
}

fn tree_lines(stdout: Stdout) -> io::Result<()> {
    for k in 0..TREES {
        tree_line(stdout, k)?;
    }
    Ok(())
}

// One answer more, and where the drawing is then.
fn called(a: Answer, state: usize, s: Sums) -> Sums {
    Sums {
        state,
        calls: one_more(s.calls, true),
        yes: one_more(s.yes, 0 < a.first),
        digest: told(s.digest, a),
    }
}

// A drawn delete.
fn drawn_delete(r: &[u16], t: &[u16], s: Sums) -> Sums {
    let x = moved(s.state);
    let mut words = [0u16; 6];
    let n = pattern(SINGLE + x % (PATTERNS - SINGLE) % PATTERNS, &mut words);
    called(sloefertand_delete_evidence(r, front(&words, n), t), x, s)
}

// A drawn insert.
fn drawn_insert(r: &[u16], t: &[u16], s: Sums) -> Sums {
    let x = moved(s.state);
    let y = moved(x);
    let mut words = [0u16; 6];
    let mut copied = [0u16; 6];
    let n = pattern(x % PATTERNS, &mut words);
    let m = tree(y % INSERTED, &mut copied);
    called(
        sloefertand_insert_evidence(r, front(&words, n), front(&copied, m), t),
        y,
        s,
    )
}

// A delete and three inserts on tree k.
fn drawn_of(r: &[u16], k: usize, s: Sums) -> Sums {
    let mut words = [0u16; 8];
    let n = tree(k, &mut words);
    let first = drawn_delete(r, front(&words, n), s);
    let second = drawn_insert(r, front(&words, n), first);
    let third = drawn_insert(r, front(&words, n), second);
    drawn_insert(r, front(&words, n), third)
}

// The same on every tree.
fn drawn(r: &[u16], state: usize) -> Sums {
    let mut s = Sums {
        state,
        calls: 0,
        yes: 0,
        digest: 0,
    };
    for k in 0..TREES {
        s = drawn_of(r, k, s);
    }
    s
}

// The line of read k.
fn drawn_line(stdout: Stdout, k: usize) -> io::Result<()> {
    let mut words = [0u16; 6];
    let n = pattern(k, &mut words);
    let s = drawn(front(&words, n), k);
    text(stdout, b"drawn ")?;
    spaced(stdout, k)?;
    spaced(stdout, s.calls)?;
    spaced(stdout, s.yes)?;
    eight(stdout, s.digest)?;
    text(stdout, b"\n")
}

fn drawn_lines(stdout: Stdout) -> io::Result<()> {
    for k in 0..PATTERNS {
        drawn_line(stdout, k)?;
    }
    Ok(())
}

pub(crate) fn table(stdout: Stdout) -> io::Result<()> {
    tree_lines(stdout)?;
    drawn_lines(stdout)?;
    large_evidence::lines(stdout)?;
    damaged_evidence::lines(stdout)
}
