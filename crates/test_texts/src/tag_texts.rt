// Table 11's texts: rows of tags, and trees written as tags, at length, inside another element, and damaged.
use sloefertand::trees::sloefertand_write_tree;
use tables::words::byte;
use test_parts::numbering::{front, words_of};
use test_parts::put::{put, put_all, put_instead};
use test_parts::rows::{behind, first};
use test_parts::tree_tables::drawn;

// How many kinds of tags a row is made of.
const KINDS: usize = 6;

// In how many ways a byte is damaged.
const DAMAGES: usize = 6;

// Damaged bytes are so far apart, and go on from the start where a text ends.
const APART: usize = 41;

// A tag of a kind.
fn put_tag(out: &mut [u8], at: usize, kind: usize) -> usize {
    if kind == 0 {
        return put_all(out, at, b"<n1>");
    }
    if kind == 1 {
        return put_all(out, at, b"</n1>");
    }
    if kind == 2 {
        return put_all(out, at, b"<n1/>");
    }
    if kind == 3 {
        return put_all(out, at, b"<n12>");
    }
    if kind == 4 {
        return put_all(out, at, b"</n12>");
    }
    put_all(out, at, b"<n2/>")
}

// Row k of n tags; its bytes.
pub(crate) fn tag_row(k: usize, n: usize, out: &mut [u8]) -> usize {
    let mut at = 0;
    let mut rest = k;
    for i in 0..n {
        at = put_tag(out, at, first(rest, KINDS));
        rest = behind(rest, KINDS);
    }
    at
}

// The tree of a shape with n nodes; its bytes.
pub(crate) fn large_text(shape: usize, n: usize, out: &mut [u8]) -> usize {
    let mut t = [0u16; 2048];
    drawn(shape, n, &mut t);
    sloefertand_write_tree(front(&t, words_of(n)), out).first % 65536
}

// The bytes behind a place and before another, none where there are fewer.
fn between(s: &[u8], place: usize, to: usize) -> &[u8] {
    if s.len() < to {
        return &s[0..0];
    }
    if to <= place {
        return &s[0..0];
    }
    &s[place + 1..to]
}

// Whether a short tag's slash is at a place.
fn is_short(s: &[u8], i: usize) -> bool {
    if byte(s, i) != 47 {
        return false;
    }
    byte(s, i % 65536 + 1) == 62
}

// Byte i of a text, but for a short tag's slash, behind whose start tag an end tag begins; its name is behind the tag's place.
fn put_long(out: &mut [u8], at: usize, s: &[u8], tag: usize, i: usize) -> usize {
    if !is_short(s, i) {
        return put(out, at, (byte(s, i) % 256) as u8);
    }
    let end = put_all(out, at, b"></");
    put_all(out, end, between(s, tag, i))
}

// The place of the last tag that begins at i or before.
fn tag_at(s: &[u8], tag: usize, i: usize) -> usize {
    if byte(s, i) == 60 {
        return i;
    }
    tag
}

// A text with a start tag and an end tag for every short tag; its bytes.
pub(crate) fn long_text(s: &[u8], out: &mut [u8]) -> usize {
    let mut at = 0;
    let mut tag = 0;
    for i in 0..s.len() {
        tag = tag_at(s, tag, i);
        at = put_long(out, at, s, tag, i);
    }
    at
}

// The tree of a shape with n nodes inside an element with label 1; its bytes.
pub(crate) fn inside_text(shape: usize, n: usize, out: &mut [u8]) -> usize {
    let at = put_all(out, 0, b"<n1>");
    if out.len() < at {
        return 0;
    }
    let length = large_text(shape, n, &mut out[at..]);
    put_all(out, at % 65536 + length % 65536, b"</n1>")
}

// What stands instead of a byte: nothing, the byte twice, or another.
fn put_damage(s: &[u8], at: usize, kind: usize, out: &mut [u8]) -> usize {
    if kind == 0 {
        return put_instead(out, s, at, &[]);
    }
    if kind == 1 {
        let b = (byte(s, at) % 256) as u8;
        return put_instead(out, s, at, &[b, b]);
    }
    if kind == 2 {
        return put_instead(out, s, at, b"<");
    }
    if kind == 3 {
        return put_instead(out, s, at, b"/");
    }
    if kind == 4 {
        return put_instead(out, s, at, b">");
    }
    put_instead(out, s, at, b"1")
}

// A text with damage k, the kind of damage changing fastest; its bytes.
pub(crate) fn damaged_text(s: &[u8], k: usize, out: &mut [u8]) -> usize {
    let place = first(k / DAMAGES % 65536 * APART, s.len());
    put_damage(s, place, k % DAMAGES, out)
}
