// Table 14, large documents: each is mended, and what is left is mended once more.
ghost use Rattle.std.specs.Prelude.{◌≤◌};

use crate::id_orders::answered;
use sloefertand::operations::sloefertand_mend;
use std::io;
use std::io::Stdout;
use test_parts::digest::{bytes, words};
use test_parts::numbering::{front, pair};
use test_parts::put::put;
use test_parts::show::{eight, spaced, text};
use test_parts::sums::{Sums, counted, no_calls};
use test_parts::tree_tables::parent;
use test_parts::wide::{front_ids, narrowed, put_id};

// The most nodes of a document.
const NODES: usize = 4096;

// The words of its table.
const WORDS: usize = 8192;

// The words of its list.
const LIST: usize = 12288;

// The forms, by the numbers that trees drawn at random have.
const CHAIN: usize = 1;

const STAR: usize = 2;

const HALVES: usize = 3;

// The mark of node v in marking k.
fn mark(k: usize, v: usize) -> u8 {
    if k == 0 {
        return 255;
    }
    if k == 1 {
        return (v == 1) as u8;
    }
    if k == 2 {
        return (v == 0) as u8;
    }
    if k == 3 {
        return (v % 3) as u8;
    }
    if k == 4 {
        return ((v % 256 * 7 + 3) % 256) as u8;
    }
    (v % 5 == 4) as u8
}

// Writes node v.
fn node(form: usize, k: usize, v: usize, table: &mut [u16], marks: &mut [u8], ids: &mut [u32]) {
    pair(table, v, parent(form, v, 0), 1);
    put(marks, v, mark(k, v));
    put_id(ids, v, narrowed(v % 65536 * 3 + 1));
}

// Writes every node.
fn document(form: usize, k: usize, table: &mut [u16], marks: &mut [u8], ids: &mut [u32]) {
    for v in 0..NODES {
        node(form, k, v, table, marks, ids);
    }
}

// The nodes of a document, as many as there is room for.
fn nodes(n: usize) -> usize
    ensures { result ≤ 4096 }
{
    if n < NODES {
        return n;
    }
    NODES
}

// One mending more, by its answer, all marks and the list after it.
fn mended(
    table: &[u16],
    marks: &mut [u8],
    used: usize,
    ids: &[u32],
    list: &mut [u16],
    s: Sums,
) -> Sums {
    let a = sloefertand_mend(table, marks, used, ids, 20000, list);
    counted(s, a, words(bytes(answered(s.digest, a), marks), list))
}

// The same with a new list of three words a node.
fn listed(table: &[u16], marks: &mut [u8], used: usize, ids: &[u32], s: Sums) -> Sums {
    let mut list = [777u16; LIST];
    let end = 3 * nodes(used);
    mended(table, marks, used, ids, &mut list[0..end], s)
}

// Two mendings.
fn twice(table: &[u16], marks: &mut [u8], used: usize, ids: &[u32]) -> Sums {
    let s = listed(table, marks, used, ids, no_calls());
    listed(table, marks, used, ids, s)
}

// Two mendings of the document of a form and marking k.
fn mendings(used: usize, form: usize, k: usize) -> Sums {
    let mut table = [0u16; WORDS];
    let mut marks = [0u8; NODES];
    let mut ids = [0u32; NODES];
    document(form, k, &mut table, &mut marks, &mut ids);
    let end = nodes(used);
    twice(
        front(&table, 2 * end),
        &mut marks[0..end],
        used,
        front_ids(&ids, end),
    )
}

// The name of a form.
fn form_name(stdout: Stdout, form: usize) -> io::Result<()> {
    if form == CHAIN {
        return text(stdout, b"chain ");
    }
    if form == STAR {
        return text(stdout, b"star ");
    }
    text(stdout, b"halves ")
}

// The line of a form and marking k, by the marking's name.
fn line(stdout: Stdout, used: usize, form: usize, k: usize, name: &[u8]) -> io::Result<()> {
    let s = mendings(used, form, k);
    text(stdout, b"mend-large ")?;
    spaced(stdout, used)?;
    form_name(stdout, form)?;
    text(stdout, name)?;
    spaced(stdout, s.calls)?;
    spaced(stdout, s.length)?;
    eight(stdout, s.digest)?;
    text(stdout, b"\n")
}

// The lines of a form.
fn lines_of(stdout: Stdout, used: usize, form: usize) -> io::Result<()> {
    line(stdout, used, form, 0, b"all ")?;
    line(stdout, used, form, 1, b"top ")?;
    line(stdout, used, form, 2, b"root ")?;
    line(stdout, used, form, 3, b"thirds ")?;
    line(stdout, used, form, 4, b"every ")?;
    line(stdout, used, form, 5, b"fifths ")
}

// The lines of a size.
fn forms(stdout: Stdout, used: usize) -> io::Result<()> {
    lines_of(stdout, used, CHAIN)?;
    lines_of(stdout, used, STAR)?;
    lines_of(stdout, used, HALVES)
}

pub(crate) fn lines(stdout: Stdout) -> io::Result<()> {
    forms(stdout, 4096)?;
    forms(stdout, 1000)
}
