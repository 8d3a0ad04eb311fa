// Table 13, plans: a read of a random batch is made wider, and its slot never moves towards 0.
use crate::plans::{FRAMES, NODE, SEED, WORDS, drafted, drawn, moved};
use crate::wider_pairs::{widen, widens};
use sloefertand::batches::{sloefertand_plan, sloefertand_plan_in, sloefertand_step};
use std::io;
use std::io::Stdout;
use tables::words::word;
use test_parts::digest::words;
use test_parts::numbering::front;
use test_parts::rows::same_words;
use test_parts::show::{eight, spaced, text};
use test_parts::tally::one_more;

// How many batches, the first ones of table 4.
const BATCHES: usize = 500;

// Words of a read's steps, three steps at most.
const READ_WORDS: usize = 6;

// What widening one read does to the plans of a line.
#[derive(Drop)]
struct Sums {
    tried: usize,
    same: usize,
    away: usize,
    towards: usize,
    others: usize,
    digest: u64,
}

// A read: its frame, and where its steps begin and end.
#[derive(Clone, Copy)]
struct Read {
    frame: usize,
    from: usize,
    end: usize,
}

// Where a walk over a batch has come to.
#[derive(Drop)]
struct Walk {
    at: usize,
    sums: Sums,
}

// Where the drawing has come to.
#[derive(Drop)]
struct Run {
    state: u64,
    sums: Sums,
}

// The node plan, its mode named, or the deep plan, by a call that names none; its frames.
fn planned(node: bool, b: &[u16], out: &mut [u16]) -> usize {
    if node {
        let a = sloefertand_plan_in(NODE, b, out);
        return a.first;
    }
    let a = sloefertand_plan(b, out);
    a.first
}

// One plan more: its digest, the slot before and after, and whether any other word is another one.
fn counted(s: Sums, digest: u64, before: usize, after: usize, others: bool) -> Sums {
    Sums {
        tried: one_more(s.tried, true),
        same: one_more(s.same, after == before),
        away: one_more(s.away, before < after),
        towards: one_more(s.towards, after < before),
        others: one_more(s.others, others),
        digest,
    }
}

// Puts a word back, if it is there.
fn put_back(t: &mut [u16], i: usize, w: usize) {
    if t.len() <= i {
        return;
    }
    t[i] = (w % 65536) as u16;
}

// The plan of a batch in which read f is wider, beside the plan before.
fn compared(node: bool, narrow: &[u16], b: &[u16], f: usize, s: Sums) -> Sums {
    let mut out = [255u16; FRAMES];
    let n = planned(node, b, &mut out);
    let digest = words(s.digest, front(&out, n));
    let before = word(narrow, f);
    let after = word(&out, f);
    put_back(&mut out, f, before);
    counted(s, digest, before, after, !same_words(narrow, &out))
}

// The word at i, with room behind a batch.
fn word_at(b: &[u16], i: usize) -> u16 {
    if i < b.len() {
        return b[i];
    }
    0
}

// The batch, with room behind it.
fn copied(b: &[u16]) -> [u16; WORDS] {
    let mut t = [0u16; WORDS];
    for i in 0..WORDS {
        t[i] = word_at(b, i);
    }
    t
}

// A part of a batch, none where it does not reach so far.
fn part(b: &[u16], from: usize, end: usize) -> &[u16] {
    if b.len() < end {
        return &b[0..0];
    }
    if end < from {
        return &b[0..0];
    }
    &b[from..end]
}

// Word i of a read, if it can be wider.
fn widened(node: bool, narrow: &[u16], b: &[u16], r: Read, i: usize, s: Sums) -> Sums {
    if !widens(part(b, r.from, r.end), i) {
        return s;
    }
    let mut t = copied(b);
    widen(&mut t, r.from % WORDS + i % READ_WORDS, i % 2);
    compared(node, narrow, front(&t, b.len()), r.frame, s)
}

// Every word of a read.
fn each_word(node: bool, narrow: &[u16], b: &[u16], r: Read, sums: Sums) -> Sums {
    let mut s = sums;
    for i in 0..READ_WORDS {
        s = widened(node, narrow, b, r, i, s);
    }
    s
}

// Frame f, where it is a read.
fn of_frame(node: bool, narrow: &[u16], b: &[u16], frame: usize, w: Walk) -> Walk {
    let sums = w.sums;
    let a = sloefertand_step(b, frame, w.at);
    let end = a.second;
    if a.first != 1 {
        return Walk { at: end, sums };
    }
    let r = Read {
        frame,
        from: w.at % WORDS + 2,
        end,
    };
    Walk {
        at: end,
        sums: each_word(node, narrow, b, r, sums),
    }
}

// Every read of a batch of so many frames.
fn each_frame(node: bool, narrow: &[u16], b: &[u16], frames: usize, sums: Sums) -> Sums {
    let mut w = Walk { at: 0, sums };
    for f in 0..frames {
        w = of_frame(node, narrow, b, f, w);
    }
    w.sums
}

// Every read of a batch.
fn of_batch(node: bool, b: &[u16], s: Sums) -> Sums {
    let mut narrow = [255u16; FRAMES];
    let frames = planned(node, b, &mut narrow);
    each_frame(node, &narrow, b, frames, s)
}

// The batch from a state.
fn batch_from(node: bool, r: Run) -> Run {
    let mut b = [0u16; WORDS];
    let first = moved(r.state);
    let d = drafted(&mut b, drawn(first, FRAMES) % FRAMES + 1, first);
    Run {
        state: d.state,
        sums: of_batch(node, front(&b, d.at), r.sums),
    }
}

// Every batch.
fn batches(node: bool) -> Sums {
    let mut r = Run {
        state: SEED,
        sums: nothing(),
    };
    for n in 0..BATCHES {
        r = batch_from(node, r);
    }
    r.sums
}

fn nothing() -> Sums {
    Sums {
        tried: 0,
        same: 0,
        away: 0,
        towards: 0,
        others: 0,
        digest: 0,
    }
}

fn line(stdout: Stdout, name: &[u8], s: Sums) -> io::Result<()> {
    text(stdout, b"wider-plans ")?;
    text(stdout, name)?;
    spaced(stdout, s.tried)?;
    spaced(stdout, s.same)?;
    spaced(stdout, s.away)?;
    spaced(stdout, s.towards)?;
    spaced(stdout, s.others)?;
    eight(stdout, s.digest)?;
    text(stdout, b"\n")
}

pub(crate) fn lines(stdout: Stdout) -> io::Result<()> {
    line(stdout, b"node ", batches(true))?;
    line(stdout, b"deep ", batches(false))
}
