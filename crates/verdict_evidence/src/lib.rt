// Another shop's witness: whether a read's set of nodes on a proposed tree differs before and after an update, and at which node first.
#![tactic(auto)]

mod copy;
mod gained;
mod lost;
mod rows;
mod search;

ghost use Rattle.conflict.specs.Conflict.{delete, insert};
ghost use Rattle.verdict_evidence.specs.Promise.{Checks};

use crate::gained::gained;
use crate::lost::lost;
use check_evidence::{delete_evidence_check, insert_evidence_check};
use outcomes::numbers::found;
use tables::refusal::Refusal;

// A read and a delete: the first node of the tree that is lost.
pub fn delete_evidence(r: &[u16], p: &[u16], t: &[u16]) -> Result<Option<usize>, Refusal>
    ensures { Checks r.now (delete p.now) t.now result }
{
    delete_evidence_check(r, p, t)?;
    Ok(found(lost(r, p, t)))
}

// A read and an insert of the tree x: the first new node that is selected.
pub fn insert_evidence(r: &[u16], p: &[u16], x: &[u16], t: &[u16]) -> Result<Option<usize>, Refusal>
    ensures { Checks r.now (insert p.now x.now) t.now result }
{
    insert_evidence_check(r, p, x, t)?;
    Ok(found(gained(r, p, x, t)))
}
