// A delete: the first node that the read selects and the delete removes.
ghost use Rattle.tables.specs.Checks.{Fine};
ghost use Rattle.std.specs.Prelude.{◌≡◌};
ghost use Rattle.check_evidence.specs.Order.{delete_evidence_check};
ghost use Rattle.verdict_evidence.specs.Finding.{within, lost_node};

use crate::rows::{removed_row, selected_row};
use crate::search::first_both;

// The number itself below n, else 0.
fn below(n: usize, v: usize) -> usize
    ensures { result ≡ within n v }
{
    if v < n {
        return v;
    }
    0
}

// The first node lost, 0 for none.
pub(crate) fn lost(r: &[u16], p: &[u16], t: &[u16]) -> usize
    requires { delete_evidence_check r.now p.now t.now ≡ Fine }
    ensures { result ≡ lost_node r.now p.now t.now }
{
    let row = selected_row(r, 1, t);
    let cut = removed_row(p, t);
    let n = t.len() / 2;
    below(n, first_both(&row, &cut, n))
}
