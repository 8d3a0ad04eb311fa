// What the check of a proposed tree admits, by document 02's order.
#![tactic(auto)]

ghost use Rattle.std.specs.Prelude.{◌≡◌, ltb};
ghost use Rattle.tables.specs.Limits.{tree_limit};
ghost use Rattle.tables.specs.Words.{steps};
ghost use Rattle.tables.specs.Checks.{◌then◌, refuse, test, tree_check};
ghost use Rattle.check_evidence.specs.Order.{delete_evidence_check, insert_evidence_check};

use check_tree::tree;
use check_verdict::{patterns_check, two_steps};
use tables::limits::TREE_LIMIT;
use tables::refusal::Refusal;

// The proposed tree, then 6.
fn tree_and_steps(p: &[u16], t: &[u16]) -> Result<(), Refusal>
    ensures { result ≡ (tree_check t.now tree_limit 5 then test (ltb 1 (steps p.now)) (refuse 6 2 0)) }
{
    tree(t, TREE_LIMIT, 5)?;
    two_steps(p)
}

// The inserted tree, then the proposed one.
fn trees(x: &[u16], t: &[u16]) -> Result<(), Refusal>
    ensures { result ≡ (tree_check x.now tree_limit 3 then tree_check t.now tree_limit 5) }
{
    tree(x, TREE_LIMIT, 3)?;
    tree(t, TREE_LIMIT, 5)
}

// A read, a delete and a proposed tree.
pub fn delete_evidence_check(r: &[u16], p: &[u16], t: &[u16]) -> Result<(), Refusal>
    ensures { result ≡ delete_evidence_check r.now p.now t.now }
{
    patterns_check(r, p)?;
    tree_and_steps(p, t)
}

// A read, an insert of the tree x and a proposed tree.
pub fn insert_evidence_check(r: &[u16], p: &[u16], x: &[u16], t: &[u16]) -> Result<(), Refusal>
    ensures { result ≡ insert_evidence_check r.now p.now x.now t.now }
{
    patterns_check(r, p)?;
    trees(x, t)
}
