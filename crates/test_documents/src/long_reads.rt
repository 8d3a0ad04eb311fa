// Table 7: reads of 1 to 255 steps on documents of 1,024 nodes, both drawn at random, and compactions of these documents.
use crate::large_documents::{NODES, WORDS, document, identities, next};
use crate::operations::kept;
use sloefertand::operations::{sloefertand_compact, sloefertand_v2_insert, sloefertand_v2_read};
use std::io;
use std::io::Stdout;
use test_parts::chosen::sum;
use test_parts::digest::{bytes, refusal, rows};
use test_parts::numbering::{front, words_of};
use test_parts::show::{eight, spaced, text};
use test_parts::tally::one_more;
use test_parts::ways::{Way, moved, steps};
use test_parts::wide::number;

// Patterns of one length for a document.
const PATTERNS: usize = 64;

// Reads by patterns of one length: eight documents, each with its patterns.
const READS: usize = 512;

// Documents that are compacted.
const COMPACTED: usize = 12;

// How many reads there were, how many nodes they selected, and the digest of their bytes.
#[derive(Drop)]
struct Sums {
    reads: usize,
    selected: usize,
    digest: u64,
}

// The pattern of read c.
fn pattern(n: usize, c: usize, table: &[u16], p: &mut [u16]) {
    let size = n % 256;
    if size == 0 {
        return;
    }
    let s = moved(1000 * size + 100 * (c % READS / PATTERNS) + c % PATTERNS);
    let way = Way {
        state: s,
        node: 2 * size + s % (NODES - 2 * size) % NODES,
    };
    steps(size, c % (2 * size), way, table, p);
}

// One read more.
fn after_read(p: &[u16], table: &[u16], marks: &[u8], ids: &[u32], next: u32, t: Sums) -> Sums {
    let mut row = [9u8; NODES];
    let a = sloefertand_v2_read(p, table, marks, NODES, ids, next, &mut row);
    if a.refusal != 0 {
        return Sums {
            reads: one_more(t.reads, true),
            selected: t.selected,
            digest: refusal(t.digest, a),
        };
    }
    Sums {
        reads: one_more(t.reads, true),
        selected: sum(t.selected, &row),
        digest: bytes(t.digest, &row),
    }
}

// One read more, after the compaction.
fn after_compaction(
    p: &[u16],
    table: &mut [u16],
    marks: &mut [u8],
    ids: &mut [u32],
    next: u32,
    t: Sums,
) -> Sums {
    let mut row = [0u8; NODES];
    let digest = kept(p, table, marks, NODES, ids, next, &mut row, t.digest);
    Sums {
        reads: one_more(t.reads, true),
        selected: sum(t.selected, &row),
        digest,
    }
}

// Read c by a pattern of n steps, of the document as it is or after the compaction.
fn read_of(again: bool, n: usize, c: usize, t: Sums) -> Sums {
    let d = c / PATTERNS;
    let mut table = [0u16; WORDS];
    let mut marks = [0u8; NODES];
    let mut ids = [0u32; NODES];
    document(d, &mut table, &mut marks);
    identities(d, &mut ids);
    let mut p = [0u16; 510];
    pattern(n, c, &table, &mut p);
    if again {
        return after_compaction(
            front(&p, words_of(n)),
            &mut table,
            &mut marks,
            &mut ids,
            next(d),
            t,
        );
    }
    after_read(front(&p, words_of(n)), &table, &marks, &ids, next(d), t)
}

// Whether read c is made: after the compaction every eighth.
fn made(again: bool, c: usize) -> bool {
    if again {
        return c % 8 == 0;
    }
    true
}

// Read c, if it is made.
fn read_made(again: bool, n: usize, c: usize, t: Sums) -> Sums {
    if made(again, c) {
        return read_of(again, n, c, t);
    }
    t
}

// The reads by patterns of n steps.
fn reads(again: bool, n: usize) -> Sums {
    let mut t = Sums {
        reads: 0,
        selected: 0,
        digest: 0,
    };
    for c in 0..READS {
        t = read_made(again, n, c, t);
    }
    t
}

// How their line begins.
fn name(stdout: Stdout, again: bool) -> io::Result<()> {
    if again {
        return text(stdout, b"kept ");
    }
    text(stdout, b"reads ")
}

// Their line.
fn line(stdout: Stdout, again: bool, n: usize) -> io::Result<()> {
    let t = reads(again, n);
    name(stdout, again)?;
    spaced(stdout, n)?;
    spaced(stdout, t.reads)?;
    spaced(stdout, t.selected)?;
    eight(stdout, t.digest)?;
    text(stdout, b"\n")
}

// The lines of all lengths.
fn lines(stdout: Stdout, again: bool) -> io::Result<()> {
    line(stdout, again, 1)?;
    line(stdout, again, 2)?;
    line(stdout, again, 31)?;
    line(stdout, again, 32)?;
    line(stdout, again, 33)?;
    line(stdout, again, 62)?;
    line(stdout, again, 63)?;
    line(stdout, again, 64)?;
    line(stdout, again, 65)?;
    line(stdout, again, 127)?;
    line(stdout, again, 128)?;
    line(stdout, again, 129)?;
    line(stdout, again, 191)?;
    line(stdout, again, 192)?;
    line(stdout, again, 193)?;
    line(stdout, again, 254)?;
    line(stdout, again, 255)
}

// What was there before a refusal, or is there after an answer.
fn there(refused: usize, before: usize, after: usize) -> usize {
    if refused == 0 {
        return after;
    }
    before
}

// An insert at the root: its refusal, 0 for none, the used count, the next identity and the digest of all rows after it.
fn show_grown(
    stdout: Stdout,
    table: &mut [u16],
    marks: &mut [u8],
    used: usize,
    ids: &mut [u32],
    next: u32,
) -> io::Result<()> {
    let p = [0u16, 0];
    let x = [0u16, 1, 0, 256, 1, 257];
    let a = sloefertand_v2_insert(&p, &x, table, marks, used, ids, next);
    spaced(stdout, a.refusal)?;
    spaced(stdout, there(a.refusal, used, a.second))?;
    spaced(stdout, there(a.refusal, number(next), a.third))?;
    eight(stdout, rows(0, table, marks, ids))
}

// The compaction's used count, how many nodes it dropped, and the digest of all rows after it.
fn show_compacted(
    stdout: Stdout,
    d: usize,
    table: &mut [u16],
    marks: &mut [u8],
    ids: &mut [u32],
) -> io::Result<()> {
    let a = sloefertand_compact(table, marks, NODES, ids, next(d));
    text(stdout, b"compaction ")?;
    spaced(stdout, d)?;
    spaced(stdout, a.first)?;
    spaced(stdout, a.second)?;
    eight(stdout, rows(0, table, marks, ids))?;
    text(stdout, b"\n")
}

// The insert after the compaction.
fn show_grown_after(
    stdout: Stdout,
    d: usize,
    table: &mut [u16],
    marks: &mut [u8],
    ids: &mut [u32],
) -> io::Result<()> {
    let a = sloefertand_compact(table, marks, NODES, ids, next(d));
    show_grown(stdout, table, marks, a.first, ids, next(d))
}

// One of the three on document d.
fn shown(stdout: Stdout, what: usize, d: usize) -> io::Result<()> {
    let mut table = [0u16; WORDS];
    let mut marks = [0u8; NODES];
    let mut ids = [0u32; NODES];
    document(d, &mut table, &mut marks);
    identities(d, &mut ids);
    if what == 0 {
        return show_compacted(stdout, d, &mut table, &mut marks, &mut ids);
    }
    if what == 1 {
        return show_grown(stdout, &mut table, &mut marks, NODES, &mut ids, next(d));
    }
    show_grown_after(stdout, d, &mut table, &mut marks, &mut ids)
}

// The lines of document d.
fn compaction(stdout: Stdout, d: usize) -> io::Result<()> {
    shown(stdout, 0, d)?;
    text(stdout, b"grown ")?;
    spaced(stdout, d)?;
    shown(stdout, 1, d)?;
    text(stdout, b" ")?;
    shown(stdout, 2, d)?;
    text(stdout, b"\n")
}

// Every compaction.
fn compactions(stdout: Stdout) -> io::Result<()> {
    for d in 0..COMPACTED {
        compaction(stdout, d)?;
    }
    Ok(())
}

pub(crate) fn table(stdout: Stdout) -> io::Result<()> {
    lines(stdout, false)?;
    lines(stdout, true)?;
    compactions(stdout)
}
