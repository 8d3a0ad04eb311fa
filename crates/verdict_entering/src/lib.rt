// From which states a read enters an inserted tree.
#![tactic(auto)]

mod rows;

ghost use Rattle.std.specs.Prelude.{◌≡◌};
ghost use Rattle.tables.specs.Limits.{step_limit};
ghost use Rattle.tables.specs.Checks.{where_fine};
ghost use Rattle.selection.specs.Lists.{tab};
ghost use Rattle.verdict_entering.specs.Climbing.{Fitting};
ghost use Rattle.verdict_entering.specs.Entering.{entering_check, entered};

use crate::rows::write_states;
use check_pattern::pattern;
use check_tree::tree;
use tables::limits::{STEP_LIMIT, TREE_LIMIT};
use tables::refusal::Refusal;

// The bytes of an accepted read and tree. A run may start at every node: that is the row of the last state.
fn entered_states(r: &[u16], x: &[u16]) -> [u8; STEP_LIMIT]
    requires { Fitting r.now x.now }
    ensures { result ≡ tab (entered r.now x.now) step_limit }
{
    let mut above = [1u8; TREE_LIMIT];
    let mut own = [0u8; TREE_LIMIT];
    let mut states = [0u8; STEP_LIMIT];
    write_states(r, x, &mut above, &mut own, &mut states);
    states
}

// The read, then the tree.
fn accepted(r: &[u16], x: &[u16]) -> Result<(), Refusal>
    ensures { result ≡ entering_check r.now x.now }
{
    pattern(r, STEP_LIMIT, 1)?;
    tree(x, TREE_LIMIT, 3)
}

// A byte for each state of r, 1 where it is before r's last and r, in this state at the update point, goes on to its last step at some node
// of x; all 0 where the read or the tree is refused.
pub fn entering_states(r: &[u16], x: &[u16]) -> [u8; STEP_LIMIT]
    ensures { result ≡ tab (where_fine (entering_check r.now x.now) (entered r.now x.now) (λ _. 0)) step_limit }
{
    match accepted(r, x) {
        Ok(()) => entered_states(r, x),
        Err(_) => [0; STEP_LIMIT],
    }
}
