// What a verdict admits: its checks, by document 01's order.
#![tactic(auto)]

ghost use Rattle.std.specs.Prelude.{◌≡◌, ltb};
ghost use Rattle.tables.specs.Words.{steps};
ghost use Rattle.tables.specs.Checks.{refuse, test};
ghost use Rattle.check_verdict.specs.Order.{room_check, patterns_check, deep_delete_check, deep_insert_check, delete_verdict_check, insert_verdict_check};

use check_pattern::pattern;
use check_tree::tree;
use tables::limits::{STEP_LIMIT, TREE_LIMIT};
use tables::refusal::{Reason, Refusal, refused};

// Whether an output of so many words is long enough: refusal 7.
fn room(r: &[u16], p: &[u16], words: usize) -> Result<(), Refusal>
    ensures { result ≡ room_check r.now p.now words }
{
    let m = r.len() / 2;
    let n = p.len() / 2;
    if words / 2 + 1 < m + n {
        return refused(Reason::Output, 4, 0);
    }
    Ok(())
}

// The read, then the update.
pub fn patterns_check(r: &[u16], p: &[u16]) -> Result<(), Refusal>
    ensures { result ≡ patterns_check r.now p.now }
{
    pattern(r, STEP_LIMIT, 1)?;
    pattern(p, STEP_LIMIT, 2)
}

// A delete has more than one step: refusal 6.
pub fn two_steps(p: &[u16]) -> Result<(), Refusal>
    ensures { result ≡ test (ltb 1 (steps p.now)) (refuse 6 2 0) }
{
    if p.len() / 2 <= 1 {
        return refused(Reason::OneStep, 2, 0);
    }
    Ok(())
}

// A read and a delete.
pub fn deep_delete_check(r: &[u16], p: &[u16]) -> Result<(), Refusal>
    ensures { result ≡ deep_delete_check r.now p.now }
{
    patterns_check(r, p)?;
    two_steps(p)
}

// A read and an insert.
pub fn deep_insert_check(r: &[u16], p: &[u16], x: &[u16]) -> Result<(), Refusal>
    ensures { result ≡ deep_insert_check r.now p.now x.now }
{
    patterns_check(r, p)?;
    tree(x, TREE_LIMIT, 3)
}

// A read and a delete, and an output of so many words.
pub fn delete_check(r: &[u16], p: &[u16], words: usize) -> Result<(), Refusal>
    ensures { result ≡ delete_verdict_check r.now p.now words }
{
    deep_delete_check(r, p)?;
    room(r, p, words)
}

// A read and an insert, and an output of so many words.
pub fn insert_check(r: &[u16], p: &[u16], x: &[u16], words: usize) -> Result<(), Refusal>
    ensures { result ≡ insert_verdict_check r.now p.now x.now words }
{
    deep_insert_check(r, p, x)?;
    room(r, p, words)
}
