// Table 9, mode lines: one before the lines of a batch, one where none may stand, and the plan in each mode.
use crate::line_damage::{
    PRINTED, ROOM, end_of, put_line, put_lines, show_answer, show_behind, undamaged,
};
use crate::two_damages::{DAMAGES, Damage};
use sloefertand::texts::sloefertand_print;
use std::io;
use std::io::Stdout;
use test_parts::numbering::front_bytes;
use test_parts::put::{put_all, put_instead};
use test_parts::show::{spaced, text};

// The mode line of node mode.
const MODE: [u16; 2] = [4, 1];

// Bytes of it with a word doubled.
const LINE: usize = 13;

// The answer for a batch behind a damaged mode line.
fn show_damaged(stdout: Stdout, b: &[u16], frames: usize, d: Damage) -> io::Result<()> {
    let mut before = [0u8; LINE];
    let n = put_line(&mut before, 0, &MODE, d);
    show_behind(stdout, front_bytes(&before, n), b, frames, undamaged())
}

// The answers for every damage of a word of the mode line.
fn show_damages(stdout: Stdout, b: &[u16], frames: usize, word: usize) -> io::Result<()> {
    for kind in 0..DAMAGES {
        show_damaged(stdout, b, frames, Damage { word, kind })?;
    }
    Ok(())
}

fn damaged(stdout: Stdout, name: usize, b: &[u16], frames: usize) -> io::Result<()> {
    spaced(stdout, name)?;
    text(stdout, b"mode")?;
    show_damages(stdout, b, frames, 0)?;
    show_damages(stdout, b, frames, 1)?;
    text(stdout, b"\n")
}

// Where the first line of a batch ends, by four digits a word.
fn first_end(b: &[u16]) -> usize {
    end_of(b, 0, 0) % ROOM * 4
}

// The answer where a mode line is put in behind the first line.
fn show_second(stdout: Stdout, b: &[u16], frames: usize) -> io::Result<()> {
    let mut lines = [0u8; ROOM];
    let n = put_lines(&mut lines, 0, b, frames, undamaged());
    let mut input = [0u8; ROOM];
    let m = put_instead(
        &mut input,
        front_bytes(&lines, n),
        first_end(b),
        b"\n00040001\n",
    );
    show_answer(stdout, front_bytes(&input, m), frames)
}

// A mode line as the second line, behind another one and behind a frame.
fn second(stdout: Stdout, name: usize, b: &[u16], frames: usize) -> io::Result<()> {
    spaced(stdout, name)?;
    text(stdout, b"second")?;
    show_behind(stdout, b"00040001\n00040001\n", b, frames, undamaged())?;
    show_second(stdout, b, frames)?;
    text(stdout, b"\n")
}

// The answer for kind 0 in the line that starts at a word, behind a mode line.
fn show_kind(stdout: Stdout, b: &[u16], frames: usize, word: usize) -> io::Result<()> {
    show_behind(stdout, b"00040001\n", b, frames, Damage { word, kind: 0 })
}

// The answers for kind 0 in each line.
fn show_kinds(stdout: Stdout, b: &[u16], frames: usize) -> io::Result<()> {
    let mut from = 0;
    for n in 0..frames {
        let to = end_of(b, n, from);
        show_kind(stdout, b, frames, from)?;
        from = to;
    }
    Ok(())
}

fn behind(stdout: Stdout, name: usize, b: &[u16], frames: usize) -> io::Result<()> {
    spaced(stdout, name)?;
    text(stdout, b"behind")?;
    show_kinds(stdout, b, frames)?;
    text(stdout, b"\n")
}

// A printed byte as it is shown: a comma for a line feed.
fn shown(b: u8) -> u8 {
    if b == b'\n' {
        return b',';
    }
    b
}

fn show_byte(stdout: Stdout, b: u8) -> io::Result<()> {
    text(stdout, &[shown(b)])
}

fn show_bytes(stdout: Stdout, s: &[u8]) -> io::Result<()> {
    for i in 0..s.len() {
        show_byte(stdout, s[i])?;
    }
    Ok(())
}

// All that is printed for an input.
fn show_print(stdout: Stdout, input: &[u8]) -> io::Result<()> {
    let mut out = [0u8; PRINTED];
    let a = sloefertand_print(input, &mut out);
    show_bytes(stdout, front_bytes(&out, a.first))?;
    text(stdout, b"\n")
}

// All that is printed for a batch behind the line of a mode.
fn show_plan(stdout: Stdout, before: &[u8], b: &[u16], frames: usize) -> io::Result<()> {
    let mut input = [0u8; ROOM];
    let at = put_all(&mut input, 0, before);
    let n = put_lines(&mut input, at, b, frames, undamaged());
    show_print(stdout, front_bytes(&input, n))
}

fn plan(
    stdout: Stdout,
    name: usize,
    mode: usize,
    before: &[u8],
    b: &[u16],
    frames: usize,
) -> io::Result<()> {
    spaced(stdout, name)?;
    text(stdout, b"plan ")?;
    spaced(stdout, mode)?;
    show_plan(stdout, before, b, frames)
}

// The plan without a mode line, numbered 0, and in each mode.
fn plans(stdout: Stdout, name: usize, b: &[u16], frames: usize) -> io::Result<()> {
    plan(stdout, name, 0, &[], b, frames)?;
    plan(stdout, name, 1, b"00040001\n", b, frames)?;
    plan(stdout, name, 2, b"00040002\n", b, frames)
}

pub(crate) fn lines(stdout: Stdout, name: usize, b: &[u16], frames: usize) -> io::Result<()> {
    damaged(stdout, name, b, frames)?;
    second(stdout, name, b, frames)?;
    behind(stdout, name, b, frames)?;
    plans(stdout, name, b, frames)
}
