// The refusals of a plain reading, by document 01's order.
#![tactic(auto)]

ghost use Rattle.std.specs.Prelude.{◌≡◌};
ghost use Rattle.tables.specs.Limits.{plain_steps};
ghost use Rattle.tables.specs.Checks.{◌then◌, pattern_check, output_check};
ghost use Rattle.check_plain.specs.Bare.{plain_check};

use check_pattern::pattern;
use check_size::output;
use check_tree::tree;
use tables::limits::{PLAIN_NODES, PLAIN_STEPS};
use tables::refusal::Refusal;

// The checks behind the tree's: the pattern, then the row.
fn pattern_and_row(p: &[u16], n: usize, bytes: usize) -> Result<(), Refusal>
    ensures { result ≡ (pattern_check p.now plain_steps 1 then output_check n bytes) }
{
    pattern(p, PLAIN_STEPS, 1)?;
    output(n, bytes)
}

// The checks of the plain reading, for a row of so many bytes.
pub fn checked(p: &[u16], t: &[u16], bytes: usize) -> Result<(), Refusal>
    ensures { result ≡ plain_check p.now t.now bytes }
{
    tree(t, PLAIN_NODES, 5)?;
    pattern_and_row(p, t.len() / 2, bytes)
}
