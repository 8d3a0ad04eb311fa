// Trees as nested tags: from a tree's words to its text.
#![tactic(auto)]

mod bytes;
mod decimal;
mod links;
mod node;
mod tag;

ghost use Rattle.std.specs.Prelude.{◌≡◌};
ghost use Rattle.tables.specs.Limits.{tree_limit};
ghost use Rattle.tables.specs.Checks.{tree_check, Fine};
ghost use Rattle.text_xml_out.specs.Writing.{WriteTree};

use crate::bytes::tree_bytes;
use crate::links::link;
use crate::node::put_node;
use check_size::output;
use check_tree::tree;
use tables::limits::TREE_LIMIT;
use tables::refusal::Refusal;

// An accepted tree: its nodes are linked, then the room is asked for, then the root is written.
fn write_linked(t: &[u16], out: &mut [u8]) -> Result<usize, Refusal>
    requires { tree_check t.now tree_limit 5 ≡ Fine }
    ensures { WriteTree t.now out.old out.new result }
{
    let mut first = [0u16; TREE_LIMIT];
    let mut next = [0u16; TREE_LIMIT];
    link(t, &mut first, &mut next);
    output(tree_bytes(t, &first, &next), out.len())?;
    Ok(put_node(t, &first, &next, 0, out, 0))
}

// From a tree's words to its text.
pub fn write_tree(t: &[u16], out: &mut [u8]) -> Result<usize, Refusal>
    ensures { WriteTree t.now out.old out.new result }
{
    tree(t, TREE_LIMIT, 5)?;
    write_linked(t, out)
}
