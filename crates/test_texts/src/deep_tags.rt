// Table 11, deep texts: thousands of elements inside each other, and end tags that are wrong.
use crate::read_tags::read;
use std::io;
use std::io::Stdout;
use tables::words::word;
use test_parts::numbering::front_bytes;
use test_parts::put::{put, put_all};
use test_parts::rows::first;
use test_parts::show::{number, spaced, text};

// Some bytes more than the longest text has.
const ROOM: usize = 95000;

// A text is cut at so many places, so far apart, which go on from the start where it ends.
const CUTS: usize = 8;

const APART: usize = 11003;

// So many levels' last end tags are damaged.
const LEVELS: usize = 12;

// The damages of an end tag: the label of two levels further out, or further in where there is none; the last digit missing; a 0 more; all of it missing.
const OTHER: usize = 1;

const LESS: usize = 2;

const MORE: usize = 3;

const NONE: usize = 4;

// So many levels down, so many of them up and down again, and then all up; the last end tag of a level with a damage, 0 for none.
#[derive(Clone, Copy)]
struct Way {
    down: usize,
    again: usize,
    level: usize,
    damage: usize,
}

// Room for a text.
fn room() -> [u8; ROOM] {
    [0; ROOM]
}

// A number less another, or 0.
fn less(n: usize, m: usize) -> usize {
    if n < m {
        return 0;
    }
    n - m
}

// The label of a level; some begin with others.
fn put_label(out: &mut [u8], at: usize, level: usize) -> usize {
    if level % 7 == 0 {
        return put_all(out, at, b"1");
    }
    if level % 7 == 1 {
        return put_all(out, at, b"12");
    }
    if level % 7 == 2 {
        return put_all(out, at, b"2");
    }
    if level % 7 == 3 {
        return put_all(out, at, b"21");
    }
    if level % 7 == 4 {
        return put_all(out, at, b"123");
    }
    if level % 7 == 5 {
        return put_all(out, at, b"7");
    }
    put_all(out, at, b"10")
}

fn put_start(out: &mut [u8], at: usize, level: usize) -> usize {
    let first = put_all(out, at, b"<n");
    let end = put_label(out, first, level);
    put(out, end, b'>')
}

fn put_end(out: &mut [u8], at: usize, level: usize) -> usize {
    let first = put_all(out, at, b"</n");
    let end = put_label(out, first, level);
    put(out, end, b'>')
}

// Two levels further out, or further in where there is none.
fn other(level: usize) -> usize {
    if level < 2 {
        return level + 2;
    }
    level - 2
}

// An end tag with a damage.
fn put_damaged(out: &mut [u8], at: usize, level: usize, damage: usize) -> usize {
    if damage == NONE {
        return at;
    }
    if damage == OTHER {
        return put_end(out, at, other(level));
    }
    let end = put_end(out, at, level);
    if damage == LESS {
        return put(out, less(end, 2), b'>');
    }
    if damage != MORE {
        return end;
    }
    put_all(out, less(end, 1), b"0>")
}

// The end tag of a level, damaged if it is the one.
fn put_last(out: &mut [u8], at: usize, level: usize, w: Way) -> usize {
    if level != w.level {
        return put_end(out, at, level);
    }
    put_damaged(out, at, level, w.damage)
}

// The start tags from a level to another, which is not among them.
fn put_starts(out: &mut [u8], at: usize, from: usize, to: usize) -> usize {
    let mut end = at;
    for level in from..to {
        end = put_start(out, end, level);
    }
    end
}

// The end tags of n levels below a level, from the innermost on.
fn put_ends(out: &mut [u8], at: usize, from: usize, n: usize, w: Way) -> usize {
    let mut end = at;
    for left in (0..n).rev() {
        end = put_last(out, end, from % 65536 + left % 65536, w);
    }
    end
}

// The whole text; its bytes.
fn put_way(out: &mut [u8], w: Way) -> usize {
    let turn = less(w.down, w.again);
    let sound = Way {
        down: w.down,
        again: w.again,
        level: w.level,
        damage: 0,
    };
    let first = put_starts(out, 0, 0, w.down);
    let second = put_ends(out, first, turn, w.again, sound);
    let third = put_starts(out, second, turn, w.down);
    put_ends(out, third, 0, w.down, w)
}

// The refusal of a text behind a space; none here is a tree that may be read.
fn show_refusal(stdout: Stdout, s: &[u8]) -> io::Result<()> {
    let a = read(s, &mut []);
    text(stdout, b" ")?;
    number(stdout, a.refusal)?;
    text(stdout, b":")?;
    number(stdout, a.table)?;
    text(stdout, b":")?;
    number(stdout, a.place)
}

// The text of a way.
fn show_way(stdout: Stdout, w: Way) -> io::Result<()> {
    let mut out = room();
    let n = put_way(&mut out, w);
    show_refusal(stdout, front_bytes(&out, n))
}

// Its start to place k.
fn show_cut(stdout: Stdout, down: usize, again: usize, k: usize) -> io::Result<()> {
    let mut out = room();
    let n = put_way(
        &mut out,
        Way {
            down,
            again,
            level: 0,
            damage: 0,
        },
    );
    show_refusal(stdout, front_bytes(&out, first(k % CUTS * APART, n)))
}

// Level k of those whose last end tags are damaged: the three outermost, one half way, and some counted back from the number of all.
fn level(down: usize, k: usize) -> usize {
    if k < 3 {
        return k;
    }
    if k == 3 {
        return down / 2;
    }
    less(
        down,
        word(&[8193, 8192, 8191, 4097, 4096, 4095, 2, 1], k - 4),
    )
}

fn show_name(stdout: Stdout, name: &[u8], down: usize, again: usize) -> io::Result<()> {
    text(stdout, name)?;
    spaced(stdout, down)?;
    number(stdout, again)
}

fn whole(stdout: Stdout, down: usize, again: usize) -> io::Result<()> {
    show_name(stdout, b"deep ", down, again)?;
    show_way(
        stdout,
        Way {
            down,
            again,
            level: 0,
            damage: 0,
        },
    )?;
    text(stdout, b"\n")
}

fn cuts(stdout: Stdout, down: usize, again: usize) -> io::Result<()> {
    show_name(stdout, b"deep-cut ", down, again)?;
    for k in 0..CUTS {
        show_cut(stdout, down, again, k)?;
    }
    text(stdout, b"\n")
}

fn ends(stdout: Stdout, name: &[u8], down: usize, again: usize, damage: usize) -> io::Result<()> {
    show_name(stdout, name, down, again)?;
    for k in 0..LEVELS {
        show_way(
            stdout,
            Way {
                down,
                again,
                level: level(down, k),
                damage,
            },
        )?;
    }
    text(stdout, b"\n")
}

// All lines of a way.
fn lines_of(stdout: Stdout, down: usize, again: usize) -> io::Result<()> {
    whole(stdout, down, again)?;
    cuts(stdout, down, again)?;
    ends(stdout, b"deep-end-1 ", down, again, OTHER)?;
    ends(stdout, b"deep-end-2 ", down, again, LESS)?;
    ends(stdout, b"deep-end-3 ", down, again, MORE)?;
    ends(stdout, b"deep-end-4 ", down, again, NONE)
}

pub(crate) fn lines(stdout: Stdout) -> io::Result<()> {
    lines_of(stdout, 1200, 0)?;
    lines_of(stdout, 4096, 0)?;
    lines_of(stdout, 4097, 0)?;
    lines_of(stdout, 9000, 0)?;
    lines_of(stdout, 6000, 3000)?;
    lines_of(stdout, 5000, 4100)
}
