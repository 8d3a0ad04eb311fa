// The check of a tree, by document 01's order, and of the nodes of a tree or a document.
#![tactic(auto)]

ghost use Rattle.std.specs.Prelude.{◌≡◌, ltb};
ghost use Rattle.tables.specs.Words.{tag};
ghost use Rattle.tables.specs.Checks.{each, parent_right, node_check, tree_check};

use check_size::sized;
use tables::refusal::{Reason, Refusal, refused};
use tables::words::{first_word, second_word};

// Whether node v's parent is right: 0 for the root, less than v for every other node.
fn parent_right(t: &[u16], v: usize) -> bool
    ensures { result ≡ parent_right t.now v }
{
    let u = first_word(t, v);
    if v == 0 {
        return u == 0;
    }
    u < v
}

// Whether node v has a label.
fn named(t: &[u16], v: usize) -> bool
    ensures { result ≡ ltb 0 (tag t.now v) }
{
    0 < second_word(t, v)
}

// The first of n nodes whose parent or label is wrong, the parent before the label.
pub fn nodes(t: &[u16], table: usize, n: usize) -> Result<(), Refusal>
    ensures { result ≡ each (node_check t.now table) 0 n }
{
    for v in 0..n {
        if !parent_right(t, v) {
            return refused(Reason::Parent, table, v);
        }
        if !named(t, v) {
            return refused(Reason::Label, table, v);
        }
    }
    Ok(())
}

// A tree of at most `limit` nodes: refusals 1, 2, then node by node 4 before 5.
pub fn tree(t: &[u16], limit: usize, table: usize) -> Result<(), Refusal>
    ensures { result ≡ tree_check t.now limit table }
{
    let n = t.len();
    sized(n, limit, table)?;
    nodes(t, table, n / 2)
}
