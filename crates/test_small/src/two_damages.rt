// Table 3, two words at once: every two damages of some batches.
use crate::damage::word_of;
use sloefertand::batches::sloefertand_plan;
use std::io;
use std::io::Stdout;
use test_parts::digest::{refusal, taken};
use test_parts::numbering::front;
use test_parts::show::{eight, spaced, text};

// Words of the longest batch, with two doubled.
const ROOM: usize = 33;

// The most frames of such a batch: a frame has 4 words or more.
const FRAMES: usize = 8;

// The damages of a word: the values that replace it, then its loss, then its doubling. Any other number damages no word.
const LOST: usize = 21;

const TWICE: usize = 22;

pub(crate) const DAMAGES: usize = 23;

// A word and its damage.
#[derive(Clone, Copy)]
pub(crate) struct Damage {
    pub(crate) word: usize,
    pub(crate) kind: usize,
}

// Value k: every count that a damaged batch has room for, the limits and one more than each, the greatest word.
fn value(k: usize) -> u16 {
    if k < 16 {
        return k as u16;
    }
    if k == 16 {
        return 255;
    }
    if k == 17 {
        return 256;
    }
    if k == 18 {
        return 1024;
    }
    if k == 19 {
        return 1025;
    }
    65535
}

// A word behind those written, if there is room.
fn put(out: &mut [u16], at: usize, word: u16) -> usize {
    if out.len() <= at {
        return at;
    }
    out[at] = word;
    at + 1
}

// The same, after its damage.
fn harmed(out: &mut [u16], at: usize, word: u16, kind: usize) -> usize {
    if kind < LOST {
        return put(out, at, value(kind));
    }
    if kind == LOST {
        return at;
    }
    let behind = put(out, at, word);
    if kind == TWICE {
        return put(out, behind, word);
    }
    behind
}

// The damage of word i, DAMAGES for none; where both are of one word, the first.
fn kind_at(i: usize, first: Damage, second: Damage) -> usize {
    if i == first.word {
        return first.kind;
    }
    if i == second.word {
        return second.kind;
    }
    DAMAGES
}

// Writes a batch with two words damaged, or one where both damages are of one word; its words.
pub(crate) fn written(out: &mut [u16], b: &[u16], first: Damage, second: Damage) -> usize {
    let mut at = 0;
    for i in 0..b.len() {
        at = harmed(out, at, word_of(b, i), kind_at(i, first, second));
    }
    at
}

// The number of frames, or the refusal.
fn planned(b: &[u16], d: u64) -> u64 {
    let mut plan = [0u16; FRAMES];
    let a = sloefertand_plan(b, &mut plan);
    if a.refusal != 0 {
        return refusal(d, a);
    }
    taken(d, a.first)
}

// The answer for a batch with two words damaged.
fn after(b: &[u16], first: Damage, second: Damage, d: u64) -> u64 {
    let mut words = [0u16; ROOM];
    let n = written(&mut words, b, first, second);
    planned(front(&words, n), d)
}

// One damage with every one of a later word.
fn with_each(b: &[u16], first: Damage, word: usize, d: u64) -> u64 {
    let mut sum = d;
    for kind in 0..DAMAGES {
        sum = after(b, first, Damage { word, kind }, sum);
    }
    sum
}

// Every damage of a word with every one of a later word.
fn digest_of(b: &[u16], word: usize, later: usize) -> u64 {
    let mut sum = 0;
    for kind in 0..DAMAGES {
        sum = with_each(b, Damage { word, kind }, later, sum);
    }
    sum
}

fn line(stdout: Stdout, name: usize, b: &[u16], word: usize, later: usize) -> io::Result<()> {
    spaced(stdout, name)?;
    spaced(stdout, word)?;
    spaced(stdout, later)?;
    eight(stdout, digest_of(b, word, later))?;
    text(stdout, b"\n")
}

// A word with each from a later one on.
fn lines_of(stdout: Stdout, name: usize, b: &[u16], word: usize, from: usize) -> io::Result<()> {
    for later in from..b.len() {
        line(stdout, name, b, word, later)?;
    }
    Ok(())
}

// Every two words of a batch.
pub(crate) fn lines(stdout: Stdout, name: usize, b: &[u16]) -> io::Result<()> {
    for word in 0..b.len() {
        lines_of(stdout, name, b, word, word + 1)?;
    }
    Ok(())
}
