// Table 4: plans of random batches from a fixed seed, in both modes.
use sloefertand::batches::{sloefertand_plan, sloefertand_plan_in};
use std::io;
use std::io::Stdout;
use test_parts::numbering::{INSERTED, PATTERNS, SINGLE, front, pattern, tree};
use test_parts::show::{digit, text};

// How many batches.
const BATCHES: usize = 2000;

// The most frames of one.
pub(crate) const FRAMES: usize = 16;

// Words of the longest.
pub(crate) const WORDS: usize = 256;

// The mode of a plan by node conflicts alone.
pub(crate) const NODE: usize = 1;

// The state before the first draw.
pub(crate) const SEED: u64 = 20261115;

// The state after a draw.
pub(crate) fn moved(s: u64) -> u64 {
    (s % 2147483648 * 1103515245 + 12345) % 2147483648
}

// What a state draws below m.
pub(crate) fn drawn(s: u64, m: usize) -> usize {
    if m == 0 {
        return 0;
    }
    (s / 65536 % 65536) as usize % m
}

// The words written so far, and the state.
#[derive(Drop)]
pub(crate) struct Draft {
    pub(crate) at: usize,
    pub(crate) state: u64,
}

// Words behind those written, if there is room.
fn appended(b: &mut [u16], at: usize, t: &[u16]) -> usize {
    let mut end = at;
    for i in 0..t.len() {
        if b.len() <= end {
            return end;
        }
        b[end] = t[i];
        end += 1;
    }
    end
}

// A count, then as many pairs.
fn counted(b: &mut [u16], at: usize, t: &[u16]) -> usize {
    let n = t.len() / 2;
    let behind = appended(b, at, &[(n % 65536) as u16]);
    appended(b, behind, t)
}

// A kind and pattern k.
fn headed(b: &mut [u16], at: usize, kind: u16, k: usize) -> usize {
    let mut steps = [0u16; 6];
    let n = pattern(k, &mut steps);
    let behind = appended(b, at, &[kind]);
    counted(b, behind, front(&steps, n))
}

// Tree x, with its count.
fn treed(b: &mut [u16], at: usize, x: usize) -> usize {
    let mut copied = [0u16; 6];
    let n = tree(x, &mut copied);
    counted(b, at, front(&copied, n))
}

// A frame more.
fn framed(b: &mut [u16], d: Draft) -> Draft {
    let kind = moved(d.state);
    let second = moved(kind);
    if drawn(kind, 3) == 0 {
        return Draft {
            at: headed(b, d.at, 1, drawn(second, PATTERNS)),
            state: second,
        };
    }
    if drawn(kind, 3) == 2 {
        return Draft {
            at: headed(
                b,
                d.at,
                3,
                SINGLE + drawn(second, PATTERNS - SINGLE) % PATTERNS,
            ),
            state: second,
        };
    }
    let third = moved(second);
    let at = headed(b, d.at, 2, drawn(second, PATTERNS));
    Draft {
        at: treed(b, at, drawn(third, INSERTED)),
        state: third,
    }
}

// So many frames.
pub(crate) fn drafted(b: &mut [u16], frames: usize, state: u64) -> Draft {
    let mut d = Draft { at: 0, state };
    for k in 0..frames {
        d = framed(b, d);
    }
    d
}

// Two digits of a plan word.
fn show_word(stdout: Stdout, w: u16) -> io::Result<()> {
    let n = w as u64;
    text(stdout, &[digit(n / 16), digit(n)])
}

// What was planned into an output of just its length.
fn show_planned(stdout: Stdout, refusal: usize, out: &[u16]) -> io::Result<()> {
    if refusal != 0 {
        return text(stdout, b"refused");
    }
    show_words(stdout, out)
}

// The node plan, its mode named.
fn node_planned(stdout: Stdout, b: &[u16], out: &mut [u16]) -> io::Result<()> {
    let a = sloefertand_plan_in(NODE, b, out);
    show_planned(stdout, a.refusal, out)
}

// The deep plan, by a call that names no mode.
fn deep_planned(stdout: Stdout, b: &[u16], out: &mut [u16]) -> io::Result<()> {
    let a = sloefertand_plan(b, out);
    show_planned(stdout, a.refusal, out)
}

fn show_node(stdout: Stdout, b: &[u16], frames: usize) -> io::Result<()> {
    let mut out = [255u16; FRAMES];
    if FRAMES < frames {
        return Ok(());
    }
    node_planned(stdout, b, &mut out[0..frames])
}

fn show_deep(stdout: Stdout, b: &[u16], frames: usize) -> io::Result<()> {
    let mut out = [255u16; FRAMES];
    if FRAMES < frames {
        return Ok(());
    }
    deep_planned(stdout, b, &mut out[0..frames])
}

// A batch's line: its two plans.
fn show_plans(stdout: Stdout, b: &[u16], frames: usize) -> io::Result<()> {
    show_node(stdout, b, frames)?;
    text(stdout, b" ")?;
    show_deep(stdout, b, frames)?;
    text(stdout, b"\n")
}

fn show_words(stdout: Stdout, t: &[u16]) -> io::Result<()> {
    for i in 0..t.len() {
        show_word(stdout, t[i])?;
    }
    Ok(())
}

// A batch from a state; the state after it.
fn batch_from(stdout: Stdout, state: u64) -> io::Result<u64> {
    let mut b = [0u16; WORDS];
    let first = moved(state);
    let frames = drawn(first, FRAMES) % FRAMES + 1;
    let d = drafted(&mut b, frames, first);
    show_plans(stdout, front(&b, d.at), frames)?;
    Ok(d.state)
}

pub(crate) fn table(stdout: Stdout) -> io::Result<()> {
    let mut s = SEED;
    for n in 0..BATCHES {
        s = batch_from(stdout, s)?;
    }
    Ok(())
}
