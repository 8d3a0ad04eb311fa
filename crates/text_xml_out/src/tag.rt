// Tags: each is written from a place on, and answers the place behind it.
ghost use Rattle.std.specs.Prelude.{◌+◌, ◌≤◌, length};
ghost use Rattle.text_xml.specs.Tags.{element_name, short_tag, start_tag, end_tag};
ghost use Rattle.text_xml_out.specs.Places.{Wrote};

use crate::decimal::put_decimal;

// n and the label.
fn put_name(label: usize, out: &mut [u8], at: usize) -> usize
    requires { at + length (element_name label) ≤ length out.old }
    ensures { Wrote (element_name label) out.old at out.new result }
{
    out[at] = 110;
    put_decimal(label, out, at + 1)
}

// The tag of a node without children.
pub(crate) fn put_short(label: usize, out: &mut [u8], at: usize) -> usize
    requires { at + length (short_tag label) ≤ length out.old }
    ensures { Wrote (short_tag label) out.old at out.new result }
{
    out[at] = 60;
    let to = put_name(label, out, at + 1);
    out[to] = 47;
    out[to + 1] = 62;
    to + 2
}

// The tag before a node's children.
pub(crate) fn put_start(label: usize, out: &mut [u8], at: usize) -> usize
    requires { at + length (start_tag label) ≤ length out.old }
    ensures { Wrote (start_tag label) out.old at out.new result }
{
    out[at] = 60;
    let to = put_name(label, out, at + 1);
    out[to] = 62;
    to + 1
}

// The tag behind a node's children.
pub(crate) fn put_end(label: usize, out: &mut [u8], at: usize) -> usize
    requires { at + length (end_tag label) ≤ length out.old }
    ensures { Wrote (end_tag label) out.old at out.new result }
{
    out[at] = 60;
    out[at + 1] = 47;
    let to = put_name(label, out, at + 2);
    out[to] = 62;
    to + 1
}
