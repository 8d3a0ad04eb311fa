// The deep verdict, yes or no: a node conflict, or an update point at or below a node that the read selects.
#![tactic(auto)]

ghost use Rattle.conflict.specs.Conflict.{delete, insert};
ghost use Rattle.verdict_deep.specs.Promise.{DeepVerdict};

use check_verdict::{deep_delete_check, deep_insert_check};
use tables::refusal::Refusal;
use verdict_ways::{delete_deep, insert_deep};

// A read and a delete.
pub fn deep_delete_verdict(r: &[u16], p: &[u16]) -> Result<bool, Refusal>
    ensures { DeepVerdict r.now (delete p.now) result }
{
    deep_delete_check(r, p)?;
    Ok(delete_deep(r, p))
}

// A read and an insert of the tree x.
pub fn deep_insert_verdict(r: &[u16], p: &[u16], x: &[u16]) -> Result<bool, Refusal>
    ensures { DeepVerdict r.now (insert p.now x.now) result }
{
    deep_insert_check(r, p, x)?;
    Ok(insert_deep(r, p, x))
}
