// How many bytes a tree takes: every node by itself, added up.
ghost use Rattle.std.specs.Prelude.{◌+◌, ◌*◌, ◌≤◌, ◌≡◌, cond, eqb};
ghost use Rattle.text_xml.specs.Tags.{tree_bytes};
ghost use Rattle.text_xml_out.specs.Links.{Nested};

use crate::decimal::digits;
use tables::words::{second_word, word};

// A node with so many digits, whose first child is this, or 0 where it has none.
fn own(digits: usize, child: usize) -> usize
    requires { digits ≤ 5 }
    ensures { result ≡ cond (eqb child 0) (4 + digits) (7 + 2 * digits) }
{
    if child == 0 {
        return 4 + digits;
    }
    7 + 2 * digits
}

// All nodes of a tree.
pub(crate) fn tree_bytes(t: &[u16], first: &[u16], next: &[u16]) -> usize
    requires { Nested t.now first.now next.now }
    ensures { result ≡ tree_bytes t.now }
{
    let n = t.len() / 2;
    let mut bytes = 0;
    for v in 0..n {
        bytes += own(digits(second_word(t, v)), word(first, v));
    }
    bytes
}
