// Nested tags: a node with its children inside it, each written the same way.
ghost use Rattle.text_xml.specs.Tags.{tags_of};
ghost use Rattle.text_xml_out.specs.Places.{Wrote};
ghost use Rattle.text_xml_out.specs.Links.{Writable};

use crate::tag::{put_end, put_short, put_start};
use tables::words::{second_word, word};

// Node v from a place on; it answers the place behind it. It calls itself on each child, whose number is nearer to the table's end.
pub(crate) fn put_node(
    t: &[u16],
    first: &[u16],
    next: &[u16],
    v: usize,
    out: &mut [u8],
    at: usize,
) -> usize
    requires { Writable t.now first.now next.now v out.old at }
    ensures { Wrote (tags_of t.now v) out.old at out.new result }
{
    let label = second_word(t, v);
    let mut child = word(first, v);
    if child == 0 {
        return put_short(label, out, at);
    }
    let mut to = put_start(label, out, at);
    while child != 0 {
        to = put_node(t, first, next, child, out, to);
        child = word(next, child);
    }
    put_end(label, out, to)
}
