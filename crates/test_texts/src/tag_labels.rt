// Table 11, labels: right ones and wrong ones, in a short tag, in a start tag with its end tag, and in the end tag of another label.
use crate::read_tags::read;
use std::io;
use std::io::Stdout;
use tables::words::word;
use test_parts::answers::{code, show_answer};
use test_parts::numbering::front_bytes;
use test_parts::put::put_all;
use test_parts::show::{spaced, text};

// Bytes of the longest text.
const ROOM: usize = 19;

// A text's line: the text, all of the buffer, and the answer.
fn show(stdout: Stdout, s: &[u8]) -> io::Result<()> {
    let mut out = [7u16; 3];
    let a = read(s, &mut out);
    text(stdout, b"label ")?;
    text(stdout, s)?;
    text(stdout, b" ")?;
    spaced(stdout, word(&out, 0))?;
    spaced(stdout, word(&out, 1))?;
    spaced(stdout, word(&out, 2))?;
    show_answer(stdout, code(a))
}

// The line of a label between two parts of a text.
fn show_between(stdout: Stdout, before: &[u8], label: &[u8], behind: &[u8]) -> io::Result<()> {
    let mut s = [0u8; ROOM];
    let first = put_all(&mut s, 0, before);
    let second = put_all(&mut s, first, label);
    let end = put_all(&mut s, second, behind);
    show(stdout, front_bytes(&s, end))
}

// The line of a label in both tags of an element.
fn show_twice(stdout: Stdout, label: &[u8]) -> io::Result<()> {
    let mut s = [0u8; ROOM];
    let first = put_all(&mut s, 0, label);
    let second = put_all(&mut s, first, b"></n");
    let end = put_all(&mut s, second, label);
    show_between(stdout, b"<n", front_bytes(&s, end), b">")
}

fn lines_of(stdout: Stdout, label: &[u8]) -> io::Result<()> {
    show_between(stdout, b"<n", label, b"/>")?;
    show_twice(stdout, label)?;
    show_between(stdout, b"<n6553></n", label, b">")?;
    show_between(stdout, b"<n65535></n", label, b">")
}

pub(crate) fn lines(stdout: Stdout) -> io::Result<()> {
    lines_of(stdout, &[])?;
    lines_of(stdout, b"0")?;
    lines_of(stdout, b"00")?;
    lines_of(stdout, b"01")?;
    lines_of(stdout, b"1")?;
    lines_of(stdout, b"9")?;
    lines_of(stdout, b"10")?;
    lines_of(stdout, b"6553")?;
    lines_of(stdout, b"9999")?;
    lines_of(stdout, b"65535")?;
    lines_of(stdout, b"65536")?;
    lines_of(stdout, b"65540")?;
    lines_of(stdout, b"66000")?;
    lines_of(stdout, b"99999")?;
    lines_of(stdout, b"100000")?;
    lines_of(stdout, b"655350")
}
