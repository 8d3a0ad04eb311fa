// One copy of the inserted tree, under a node of the proposed tree: which of its nodes the read selects.
ghost use Rattle.std.specs.Prelude.{◌+◌, ◌*◌, ◌<◌, ◌≤◌, ◌≡◌, ◌++◌, length, drop, get_or};
ghost use Rattle.tables.specs.Words.{nodes};
ghost use Rattle.selection.specs.Lists.{tab};
ghost use Rattle.selection.specs.Ways.{up};
ghost use Rattle.verdict_evidence.specs.Finding.{first_of, picks};
ghost use Rattle.verdict_evidence.specs.Rows.{Hung, Picked};

use crate::search::first_behind;
use doc_copy::grafted;
use doc_read::read::reading;
use tables::limits::TREE_LIMIT;

// Nodes of a proposed tree and of one copy, and their words.
const BOTH: usize = TREE_LIMIT + TREE_LIMIT;

const WORDS: usize = 2 * BOTH;

// The words of t at the front of the rows.
fn lay(t: &[u16], rows: &mut [u16])
    requires { length t.now ≤ length rows.old }
    ensures { rows.new ≡ tab (λ i. get_or t.now i 0) (length t.now) ++ drop (length t.now) rows.old }
{
    let n = t.len();
    for i in 0..n {
        rows[i] = t[i];
    }
}

// A read of t with one copy of x under q, behind t's nodes: a row with 1 at the nodes that it selects.
fn copy_row(r: &[u16], x: &[u16], t: &[u16], q: usize) -> [u8; BOTH]
    requires { Hung r.now x.now t.now q }
    ensures { Picked r.now x.now t.now q result }
{
    let mut rows = [0u16; WORDS];
    lay(t, &mut rows);
    let mut marks = [0u8; BOTH];
    let used = grafted(x, q, t.len() / 2, &mut rows, &mut marks);
    let mut row = [0u8; BOTH];
    let _ = reading(r, 1, &rows, &marks, used, &mut row);
    row
}

// The first node of the copy under q that the read selects, the number of its nodes for none.
pub(crate) fn copy_node(r: &[u16], x: &[u16], t: &[u16], q: usize) -> usize
    requires { Hung r.now x.now t.now q }
    ensures { result ≡ first_of (picks r.now x.now (up t.now q)) (nodes x.now) }
{
    let row = copy_row(r, x, t, q);
    first_behind(&row, t.len() / 2, x.len() / 2)
}
