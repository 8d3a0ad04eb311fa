// The counted parts of a frame: its steps, and the nodes of an insert.
#![tactic(auto)]

ghost use Rattle.std.specs.Prelude.{◌≡◌, ◌-◌, ◌≤◌, cond, eqb, length};
ghost use Rattle.tables.specs.Limits.{step_limit, tree_limit};
ghost use Rattle.tables.specs.Checks.{pattern_check, tree_check};
ghost use Rattle.tables.specs.Refusals.{number};
ghost use Rattle.batch_parts.specs.Parts.{part, in_steps, in_nodes, count_check, steps_check, nodes_check};

use check_pattern::pattern;
use check_tree::tree;
use tables::limits::{STEP_LIMIT, TREE_LIMIT};
use tables::refusal::{Reason, Refusal, refused};
use tables::words::word;

// A count at a place, and two words for each behind it.
fn counted(b: &[u16], at: usize, limit: usize) -> Result<(), Refusal>
    ensures { result ≡ count_check b.now at limit }
{
    let words = b.len();
    if words <= at {
        return refused(Reason::Ends, 6, words);
    }
    let count = word(b, at);
    if count == 0 {
        return refused(Reason::Words, 6, at);
    }
    if limit < count {
        return refused(Reason::Limit, 6, at);
    }
    if (words - at - 1) / 2 < count {
        return refused(Reason::Ends, 6, words);
    }
    Ok(())
}

// The steps from here to there: the axis of a step is its first word.
fn steps_part(b: &[u16], from: usize, to: usize) -> Result<(), Refusal>
    requires { (from ≤ to) × (to ≤ length b.now) }
    ensures { result ≡ in_steps from (pattern_check (part b.now from (to - from)) step_limit 6) }
{
    match pattern(&b[from..to], STEP_LIMIT, 6) {
        Ok(()) => Ok(()),
        Err(r) => refused(r.reason, 6, from + 2 * r.place),
    }
}

// Which word of a node a refusal names: the label where that is at fault, else the parent.
fn word_named(reason: Reason) -> usize
    ensures { result ≡ cond (eqb (number reason) 5) 1 0 }
{
    if reason == Reason::Label {
        return 1;
    }
    0
}

// The nodes from here to there, two words each.
fn nodes_part(b: &[u16], from: usize, to: usize) -> Result<(), Refusal>
    requires { (from ≤ to) × (to ≤ length b.now) }
    ensures { result ≡ in_nodes from (tree_check (part b.now from (to - from)) tree_limit 6) }
{
    match tree(&b[from..to], TREE_LIMIT, 6) {
        Ok(()) => Ok(()),
        Err(r) => {
            let word = word_named(r.reason);
            refused(r.reason, 6, from + 2 * r.place + word)
        }
    }
}

// The step count at a place and the steps behind it.
pub fn steps_checked(b: &[u16], at: usize) -> Result<(), Refusal>
    ensures { result ≡ steps_check b.now at }
{
    counted(b, at, STEP_LIMIT)?;
    let count = word(b, at);
    steps_part(b, at + 1, at + 1 + 2 * count)
}

// The node count at a place and the nodes behind it.
pub fn nodes_checked(b: &[u16], at: usize) -> Result<(), Refusal>
    ensures { result ≡ nodes_check b.now at }
{
    counted(b, at, TREE_LIMIT)?;
    let count = word(b, at);
    nodes_part(b, at + 1, at + 1 + 2 * count)
}
