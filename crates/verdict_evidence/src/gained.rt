// An insert: the first new node that the read selects.
ghost use Rattle.tables.specs.Checks.{Fine};
ghost use Rattle.std.specs.Prelude.{◌≡◌};
ghost use Rattle.tables.specs.Documents.{bare};
ghost use Rattle.doc_updates.specs.Asking.{Chosen};
ghost use Rattle.check_evidence.specs.Order.{insert_evidence_check};
ghost use Rattle.verdict_evidence.specs.Finding.{gained_node};
ghost use Rattle.verdict_evidence.specs.Rows.{Enterable};

use crate::copy::copy_node;
use crate::rows::{selected_row, standing_row};
use crate::search::first_both;
use doc_room::counted;
use tables::limits::TREE_LIMIT;
use verdict_entering::entering_states;

// A row with 1 at the nodes at which a step stands from which the read enters x: in a copy there it selects some node.
fn enterable_row(r: &[u16], p: &[u16], x: &[u16], t: &[u16]) -> [u8; TREE_LIMIT]
    requires { insert_evidence_check r.now p.now x.now t.now ≡ Fine }
    ensures { Enterable r.now x.now t.now result }
{
    let states = entering_states(r, x);
    standing_row(r, &states, t)
}

// The first new node, 0 for none: of the first update point that is enterable, the first node of its copy.
fn first_new(r: &[u16], p: &[u16], x: &[u16], t: &[u16], points: &[u8], enterable: &[u8]) -> usize
    requires t_value { insert_evidence_check r.now p.now x.now t.now ≡ Fine }
    requires chosen { Chosen p.now (bare t.now) points.now }
    requires enterable { Enterable r.now x.now t.now enterable.now }
    ensures { result ≡ gained_node r.now p.now x.now t.now }
{
    let n = t.len() / 2;
    let q = first_both(points, enterable, n);
    if n <= q {
        return 0;
    }
    let k = copy_node(r, x, t, q);
    n + counted(points, q) * (x.len() / 2) + k
}

// The same of an accepted read, insert and tree: the update points, and the nodes that are enterable.
pub(crate) fn gained(r: &[u16], p: &[u16], x: &[u16], t: &[u16]) -> usize
    requires { insert_evidence_check r.now p.now x.now t.now ≡ Fine }
    ensures { result ≡ gained_node r.now p.now x.now t.now }
{
    let points = selected_row(p, 2, t);
    let enterable = enterable_row(r, p, x, t);
    first_new(r, p, x, t, &points, &enterable)
}
