// Each node's first child and next sibling, 0 where there is none: the root is nobody's child.
ghost use Rattle.text_xml_out.specs.Links.{LinkedFrom, Linkable};

use tables::words::first_word;

// One pass from the last node to the first: a node comes before the children that its parent has so far.
pub(crate) fn link(t: &[u16], first: &mut [u16], next: &mut [u16])
    requires { Linkable t.now first.old next.old }
    ensures { LinkedFrom 1 t.now first.new next.new }
{
    let n = t.len() / 2;
    for v in (1..n).rev() {
        let u = first_word(t, v);
        next[v] = first[u];
        first[u] = v as u16;
    }
}
