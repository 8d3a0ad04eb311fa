// Table 11: tags read into tree tables. Here the calls that are counted; what is shown, and deep texts, have files of their own.
use crate::tag_texts::{damaged_text, inside_text, large_text, long_text, tag_row};
use crate::{deep_tags, tag_bytes, tag_labels};
use c_answer::answer::Answer;
use sloefertand::trees::sloefertand_read_tree;
use std::io;
use std::io::Stdout;
use test_parts::digest::words;
use test_parts::numbering::front_bytes;
use test_parts::rows;
use test_parts::sums::{Sums, counted, no_calls, show_sums};
use test_parts::tally::told;

// The parts.
const TEXTS: usize = 1;

const ROWS: usize = 2;

const CUT_ROWS: usize = 3;

const LARGE: usize = 4;

const AT_LENGTH: usize = 5;

const INSIDE: usize = 6;

const INSIDE_CUT: usize = 7;

const DAMAGED: usize = 8;

// The most bytes of a short text, and the words of its whole buffer, one more than any needs.
const SHORT: usize = 7;

const SHORT_ROOM: usize = 3;

// Bytes of the longest row of tags, and the words of its whole buffer, one more than any needs.
const ROW: usize = 36;

const ROW_ROOM: usize = 13;

// Bytes of the longest text of a large tree, at length or inside another element, and the words of its whole buffer, one more than any needs.
const LONG: usize = 17409;

const LONG_ROOM: usize = 2049;

// Nodes of a damaged tree.
const DAMAGED_NODES: usize = 96;

// Reads a text.
pub(crate) fn read(s: &[u8], out: &mut [u16]) -> Answer {
    sloefertand_read_tree(s, out)
}

// One call more.
fn called(s: &[u8], out: &mut [u16], sums: Sums) -> Sums {
    let a = read(s, out);
    counted(sums, a, words(told(sums.digest, a), out))
}

// The same with so many words.
fn with_room(s: &[u8], room: usize, sums: Sums) -> Sums {
    if room <= ROW_ROOM {
        let mut out = [7u16; ROW_ROOM];
        return called(s, &mut out[0..room], sums);
    }
    if LONG_ROOM < room {
        return sums;
    }
    let mut out = [7u16; LONG_ROOM];
    called(s, &mut out[0..room], sums)
}

// Into the whole buffer, then into as many words as that took, then, if it took any, into one word less.
fn with_rooms(s: &[u8], whole: usize, sums: Sums) -> Sums {
    let first = with_room(s, whole, sums);
    let second = with_room(s, first.last, first);
    if first.last == 0 {
        return second;
    }
    with_room(s, first.last - 1, second)
}

// Text k of as many bytes as there is room for.
fn spelled(k: usize, s: &mut [u8], sums: Sums) -> Sums {
    rows::bytes(k, b"</>n01", s);
    with_rooms(s, SHORT_ROOM, sums)
}

// The same of n bytes.
fn short_text(n: usize, k: usize, sums: Sums) -> Sums {
    let mut s = [0u8; SHORT];
    if SHORT < n {
        return sums;
    }
    spelled(k, &mut s[0..n], sums)
}

// Row k of n tags.
fn whole_row(n: usize, k: usize, sums: Sums) -> Sums {
    let mut s = [0u8; ROW];
    let length = tag_row(k, n, &mut s);
    with_rooms(front_bytes(&s, length), ROW_ROOM, sums)
}

// Every start of a text but all of it.
fn starts(s: &[u8], sums: Sums) -> Sums {
    let mut t = sums;
    for i in 0..s.len() {
        t = with_rooms(front_bytes(s, i), ROW_ROOM, t);
    }
    t
}

// Those of row k of n tags.
fn cut_row(n: usize, k: usize, sums: Sums) -> Sums {
    let mut s = [0u8; ROW];
    let length = tag_row(k, n, &mut s);
    starts(front_bytes(&s, length), sums)
}

// Tree k of a shape.
fn large(shape: usize, k: usize, sums: Sums) -> Sums {
    let mut s = [0u8; LONG];
    let length = large_text(shape, k % 8 * 128 + 128, &mut s);
    with_rooms(front_bytes(&s, length), LONG_ROOM, sums)
}

// The same with a start tag and an end tag for every short tag.
fn at_length(shape: usize, k: usize, sums: Sums) -> Sums {
    let mut s = [0u8; LONG];
    let mut out = [0u8; LONG];
    let length = large_text(shape, k % 8 * 128 + 128, &mut s);
    let end = long_text(front_bytes(&s, length), &mut out);
    with_rooms(front_bytes(&out, end), LONG_ROOM, sums)
}

// One of the three largest trees of a shape inside another element.
fn inside(shape: usize, k: usize, sums: Sums) -> Sums {
    let mut s = [0u8; LONG];
    let length = inside_text(shape, k % 3 + 1022, &mut s);
    with_rooms(front_bytes(&s, length), LONG_ROOM, sums)
}

// The same without the last byte.
fn inside_cut(shape: usize, k: usize, sums: Sums) -> Sums {
    let mut s = [0u8; LONG];
    let length = inside_text(shape, k % 3 + 1022, &mut s);
    if length == 0 {
        return sums;
    }
    with_rooms(front_bytes(&s, length - 1), LONG_ROOM, sums)
}

// Damage k of a tree of a shape.
fn damaged(shape: usize, k: usize, sums: Sums) -> Sums {
    let mut s = [0u8; LONG];
    let mut out = [0u8; LONG];
    let length = large_text(shape, DAMAGED_NODES, &mut s);
    let end = damaged_text(front_bytes(&s, length), k, &mut out);
    with_rooms(front_bytes(&out, end), LONG_ROOM, sums)
}

// Text k of a line.
fn text_of(part: usize, n: usize, k: usize, sums: Sums) -> Sums {
    if part == TEXTS {
        return short_text(n, k, sums);
    }
    if part == ROWS {
        return whole_row(n, k, sums);
    }
    if part == CUT_ROWS {
        return cut_row(n, k, sums);
    }
    if part == LARGE {
        return large(n, k, sums);
    }
    if part == AT_LENGTH {
        return at_length(n, k, sums);
    }
    if part == INSIDE {
        return inside(n, k, sums);
    }
    if part == INSIDE_CUT {
        return inside_cut(n, k, sums);
    }
    damaged(n, k, sums)
}

// Every text of a line.
fn texts(part: usize, n: usize, count: usize) -> Sums {
    let mut s = no_calls();
    for k in 0..count {
        s = text_of(part, n, k, s);
    }
    s
}

fn line(stdout: Stdout, name: &[u8], part: usize, n: usize, count: usize) -> io::Result<()> {
    show_sums(stdout, name, n, texts(part, n, count))
}

// Every length, with six kinds of bytes.
fn text_lines(stdout: Stdout) -> io::Result<()> {
    line(stdout, b"tag-texts ", TEXTS, 0, 1)?;
    line(stdout, b"tag-texts ", TEXTS, 1, 6)?;
    line(stdout, b"tag-texts ", TEXTS, 2, 36)?;
    line(stdout, b"tag-texts ", TEXTS, 3, 216)?;
    line(stdout, b"tag-texts ", TEXTS, 4, 1296)?;
    line(stdout, b"tag-texts ", TEXTS, 5, 7776)?;
    line(stdout, b"tag-texts ", TEXTS, 6, 46656)?;
    line(stdout, b"tag-texts ", TEXTS, 7, 279936)
}

// Every number of tags, of six kinds.
fn row_lines(stdout: Stdout) -> io::Result<()> {
    line(stdout, b"tag-rows ", ROWS, 0, 1)?;
    line(stdout, b"tag-rows ", ROWS, 1, 6)?;
    line(stdout, b"tag-rows ", ROWS, 2, 36)?;
    line(stdout, b"tag-rows ", ROWS, 3, 216)?;
    line(stdout, b"tag-rows ", ROWS, 4, 1296)?;
    line(stdout, b"tag-rows ", ROWS, 5, 7776)?;
    line(stdout, b"tag-rows ", ROWS, 6, 46656)?;
    line(stdout, b"cut-rows ", CUT_ROWS, 0, 1)?;
    line(stdout, b"cut-rows ", CUT_ROWS, 1, 6)?;
    line(stdout, b"cut-rows ", CUT_ROWS, 2, 36)?;
    line(stdout, b"cut-rows ", CUT_ROWS, 3, 216)?;
    line(stdout, b"cut-rows ", CUT_ROWS, 4, 1296)
}

// All lines of a shape.
fn shape_lines(stdout: Stdout, shape: usize) -> io::Result<()> {
    line(stdout, b"tag-large ", LARGE, shape, 8)?;
    line(stdout, b"tag-long ", AT_LENGTH, shape, 8)?;
    line(stdout, b"tag-inside ", INSIDE, shape, 3)?;
    line(stdout, b"tag-inside-cut ", INSIDE_CUT, shape, 3)?;
    line(stdout, b"tag-damaged ", DAMAGED, shape, 240)
}

pub(crate) fn table(stdout: Stdout) -> io::Result<()> {
    tag_bytes::lines(stdout)?;
    text_lines(stdout)?;
    row_lines(stdout)?;
    tag_labels::lines(stdout)?;
    shape_lines(stdout, 0)?;
    shape_lines(stdout, 1)?;
    shape_lines(stdout, 2)?;
    shape_lines(stdout, 3)?;
    shape_lines(stdout, 4)?;
    shape_lines(stdout, 5)?;
    deep_tags::lines(stdout)
}
