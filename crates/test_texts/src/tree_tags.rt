// Table 8: trees written as nested tags, and tables that are refused.
use sloefertand::trees::sloefertand_write_tree;
use std::io;
use std::io::Stdout;
use test_parts::answers::{code, show_answer};
use test_parts::digest::bytes;
use test_parts::numbering::{front, words_of};
use test_parts::rows;
use test_parts::show::text;
use test_parts::sums::{Sums, counted, no_calls, show_sums};
use test_parts::tally::told;
use test_parts::tree_tables::{damage, drawn, numbered};

// The parts; the number of a part of numbered trees is how many kinds of labels they have.
const SHAPES: usize = 1;

const TREES: usize = 3;

const WIDTHS: usize = 10;

const WORDS: usize = 4;

const LARGE: usize = 5;

const DAMAGED: usize = 6;

// Bytes of the buffer that is shown, some more than any tree there needs.
const SHOWN_ROOM: usize = 36;

// Bytes of the whole buffer for numbered trees, some more than any needs.
const SMALL_ROOM: usize = 48;

// Bytes of the whole buffer for large trees, some more than any needs.
const LARGE_ROOM: usize = 17408;

// Rooms of the tables of small words, from no byte to one more than any needs.
const ROOMS: usize = 25;

// One call more.
fn called(t: &[u16], out: &mut [u8], s: Sums) -> Sums {
    let a = sloefertand_write_tree(t, out);
    counted(s, a, bytes(told(s.digest, a), out))
}

// The same with so many bytes.
fn with_room(t: &[u16], room: usize, s: Sums) -> Sums {
    if room <= SMALL_ROOM {
        let mut out = [b'.'; SMALL_ROOM];
        return called(t, &mut out[0..room], s);
    }
    if LARGE_ROOM < room {
        return s;
    }
    let mut out = [b'.'; LARGE_ROOM];
    called(t, &mut out[0..room], s)
}

// Into the whole buffer, then into as many bytes as that took, then, if it took any, into one byte less.
fn with_rooms(t: &[u16], whole: usize, s: Sums) -> Sums {
    let first = with_room(t, whole, s);
    let second = with_room(t, first.last, first);
    if first.last == 0 {
        return second;
    }
    with_room(t, first.last - 1, second)
}

// Numbered tree k of n nodes.
fn small_tree(kinds: usize, n: usize, k: usize, s: Sums) -> Sums {
    let mut t = [0u16; 10];
    numbered(k, kinds, n, &mut t);
    with_rooms(front(&t, words_of(n)), SMALL_ROOM, s)
}

// Table k / 25 of n small words, with k % 25 bytes.
fn small_words(n: usize, k: usize, s: Sums) -> Sums {
    let mut t = [0u16; 6];
    rows::words(k / ROOMS, 4, &mut t);
    with_room(front(&t, n), k % ROOMS, s)
}

// Tree k of a shape.
fn large_tree(shape: usize, k: usize, s: Sums) -> Sums {
    let mut t = [0u16; 2048];
    let n = k % 8 * 128 + 128;
    drawn(shape, n, &mut t);
    with_rooms(front(&t, words_of(n)), LARGE_ROOM, s)
}

// The first n words of a tree of 1,025 nodes with damage k.
fn damaged_tree(n: usize, k: usize, s: Sums) -> Sums {
    let mut t = [0u16; 2050];
    drawn(4, 1025, &mut t);
    damage(k, &mut t);
    with_rooms(front(&t, n), LARGE_ROOM, s)
}

// Table k of a line; of small words, table and room k.
fn table_of(part: usize, n: usize, k: usize, s: Sums) -> Sums {
    if part == WORDS {
        return small_words(n, k, s);
    }
    if part == LARGE {
        return large_tree(n, k, s);
    }
    if part == DAMAGED {
        return damaged_tree(n, k, s);
    }
    small_tree(part, n, k, s)
}

// Every table of a line.
fn tables(part: usize, n: usize, count: usize) -> Sums {
    let mut s = no_calls();
    for k in 0..count {
        s = table_of(part, n, k, s);
    }
    s
}

fn line(stdout: Stdout, name: &[u8], part: usize, n: usize, count: usize) -> io::Result<()> {
    show_sums(stdout, name, n, tables(part, n, count))
}

// A tree's line: all of the buffer, and the answer.
fn show(stdout: Stdout, name: &[u8], t: &[u16], out: &mut [u8]) -> io::Result<()> {
    let a = sloefertand_write_tree(t, out);
    text(stdout, name)?;
    text(stdout, out)?;
    text(stdout, b" ")?;
    show_answer(stdout, code(a))
}

// The line of numbered tree k of n nodes.
fn show_tree(stdout: Stdout, name: &[u8], kinds: usize, n: usize, k: usize) -> io::Result<()> {
    let mut t = [0u16; 10];
    let mut out = [b'.'; SHOWN_ROOM];
    numbered(k, kinds, n, &mut t);
    show(stdout, name, front(&t, words_of(n)), &mut out)
}

// The lines of every one.
fn show_trees(stdout: Stdout, name: &[u8], kinds: usize, n: usize, count: usize) -> io::Result<()> {
    for k in 0..count {
        show_tree(stdout, name, kinds, n, k)?;
    }
    Ok(())
}

pub(crate) fn table(stdout: Stdout) -> io::Result<()> {
    show_trees(stdout, b"shape ", SHAPES, 1, 1)?;
    show_trees(stdout, b"shape ", SHAPES, 2, 1)?;
    show_trees(stdout, b"shape ", SHAPES, 3, 2)?;
    show_trees(stdout, b"shape ", SHAPES, 4, 6)?;
    show_trees(stdout, b"width ", WIDTHS, 1, 10)?;
    line(stdout, b"trees ", TREES, 1, 3)?;
    line(stdout, b"trees ", TREES, 2, 9)?;
    line(stdout, b"trees ", TREES, 3, 54)?;
    line(stdout, b"trees ", TREES, 4, 486)?;
    line(stdout, b"trees ", TREES, 5, 5832)?;
    line(stdout, b"widths ", WIDTHS, 1, 10)?;
    line(stdout, b"widths ", WIDTHS, 2, 100)?;
    line(stdout, b"widths ", WIDTHS, 3, 2000)?;
    line(stdout, b"words ", WORDS, 0, ROOMS)?;
    line(stdout, b"words ", WORDS, 1, 4 * ROOMS)?;
    line(stdout, b"words ", WORDS, 2, 16 * ROOMS)?;
    line(stdout, b"words ", WORDS, 3, 64 * ROOMS)?;
    line(stdout, b"words ", WORDS, 4, 256 * ROOMS)?;
    line(stdout, b"words ", WORDS, 5, 1024 * ROOMS)?;
    line(stdout, b"words ", WORDS, 6, 4096 * ROOMS)?;
    line(stdout, b"large ", LARGE, 0, 8)?;
    line(stdout, b"large ", LARGE, 1, 8)?;
    line(stdout, b"large ", LARGE, 2, 8)?;
    line(stdout, b"large ", LARGE, 3, 8)?;
    line(stdout, b"large ", LARGE, 4, 8)?;
    line(stdout, b"large ", LARGE, 5, 8)?;
    line(stdout, b"damaged ", DAMAGED, 0, 25)?;
    line(stdout, b"damaged ", DAMAGED, 1, 25)?;
    line(stdout, b"damaged ", DAMAGED, 2047, 25)?;
    line(stdout, b"damaged ", DAMAGED, 2048, 25)?;
    line(stdout, b"damaged ", DAMAGED, 2049, 25)?;
    line(stdout, b"damaged ", DAMAGED, 2050, 25)
}
