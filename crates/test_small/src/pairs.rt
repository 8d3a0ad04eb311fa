// Table 1: the number of a smallest witness and the deep verdict of every pair of a read and an update.
use c_answer::answer::Answer;
use sloefertand::verdicts::{
    sloefertand_deep_delete_verdict, sloefertand_deep_insert_verdict, sloefertand_delete_verdict,
    sloefertand_insert_verdict,
};
use std::io;
use std::io::Stdout;
use test_parts::numbering::{INSERTED, PATTERNS, SINGLE, front, pattern, tree};
use test_parts::show::text;

// The nodes of the witness, 0 for none; 9 where it is refused.
pub(crate) fn nodes_of(a: Answer) -> usize {
    if a.refusal == 0 {
        return a.first;
    }
    9
}

// A digit where the deep verdict is yes exactly with a conflict, else a letter.
fn sign(n: usize, deep: bool) -> u8 {
    let small = (n % 10) as u8;
    if deep == (0 < n) {
        return small + 48;
    }
    small + 97
}

// The sign of a read and a delete.
fn of_delete(r: &[u16], p: &[u16]) -> u8 {
    let mut out = [0u16; 10];
    let n = nodes_of(sloefertand_delete_verdict(r, p, &mut out));
    let deep = sloefertand_deep_delete_verdict(r, p);
    sign(n, deep.first == 1)
}

// The sign of a read and an insert.
fn of_insert(r: &[u16], p: &[u16], x: &[u16]) -> u8 {
    let mut out = [0u16; 10];
    let n = nodes_of(sloefertand_insert_verdict(r, p, x, &mut out));
    let deep = sloefertand_deep_insert_verdict(r, p, x);
    sign(n, deep.first == 1)
}

// An update with no tree is a delete.
fn of_pair(k: usize, p: &[u16], x: &[u16]) -> u8 {
    let mut words = [0u16; 6];
    let n = pattern(k, &mut words);
    let r = front(&words, n);
    if x.len() == 0 {
        return of_delete(r, p);
    }
    of_insert(r, p, x)
}

// An update against every read, and a line feed.
fn signs(p: &[u16], x: &[u16]) -> [u8; PATTERNS + 1] {
    let mut row = [10u8; PATTERNS + 1];
    for k in 0..PATTERNS {
        row[k] = of_pair(k, p, x);
    }
    row
}

fn line(stdout: Stdout, p: &[u16], x: &[u16]) -> io::Result<()> {
    let row = signs(p, x);
    text(stdout, &row)
}

// The delete of pattern k.
fn delete_line(stdout: Stdout, k: usize) -> io::Result<()> {
    let mut words = [0u16; 6];
    let n = pattern(k, &mut words);
    line(stdout, front(&words, n), &[])
}

fn deletes(stdout: Stdout) -> io::Result<()> {
    for k in SINGLE..PATTERNS {
        delete_line(stdout, k)?;
    }
    Ok(())
}

// The insert of tree x at p.
fn insert_line(stdout: Stdout, p: &[u16], x: usize) -> io::Result<()> {
    let mut words = [0u16; 6];
    let n = tree(x, &mut words);
    line(stdout, p, front(&words, n))
}

// Every insert at p.
fn inserts_at(stdout: Stdout, p: &[u16]) -> io::Result<()> {
    for x in 0..INSERTED {
        insert_line(stdout, p, x)?;
    }
    Ok(())
}

// Every insert at pattern k.
fn insert_lines(stdout: Stdout, k: usize) -> io::Result<()> {
    let mut words = [0u16; 6];
    let n = pattern(k, &mut words);
    inserts_at(stdout, front(&words, n))
}

fn inserts(stdout: Stdout) -> io::Result<()> {
    for k in 0..PATTERNS {
        insert_lines(stdout, k)?;
    }
    Ok(())
}

pub(crate) fn table(stdout: Stdout) -> io::Result<()> {
    deletes(stdout)?;
    inserts(stdout)
}
