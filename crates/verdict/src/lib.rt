// The verdict: whether a read and an update conflict, with a smallest witness.
#![tactic(auto)]

ghost use Rattle.conflict.specs.Conflict.{delete, insert};
ghost use Rattle.verdict.specs.Promise.{NodeVerdict};

use check_verdict::{delete_check, insert_check};
use outcomes::numbers::found;
use tables::refusal::Refusal;
use verdict_ways::{delete_way, insert_way};

// A read and a delete: the nodes of the witness, none where they do not conflict.
pub fn delete_verdict(r: &[u16], p: &[u16], out: &mut [u16]) -> Result<Option<usize>, Refusal>
    ensures { NodeVerdict r.now (delete p.now) out.old out.new result }
{
    delete_check(r, p, out.len())?;
    Ok(found(delete_way(r, p, out)))
}

// A read and an insert of the tree x.
pub fn insert_verdict(
    r: &[u16],
    p: &[u16],
    x: &[u16],
    out: &mut [u16],
) -> Result<Option<usize>, Refusal>
    ensures { NodeVerdict r.now (insert p.now x.now) out.old out.new result }
{
    insert_check(r, p, x, out.len())?;
    Ok(found(insert_way(r, p, x, out)))
}
