// The rows of an inserted tree, one for each state: the nodes to which a run comes in this state, from below. A state's row needs that of the
// next state only, so two rows are kept.
ghost use Rattle.std.specs.Prelude.{suc, ◌+◌, ◌<◌, ◌≤◌, ◌≡◌, false, ◌&&◌, length};
ghost use Rattle.tables.specs.Limits.{word_limit};
ghost use Rattle.tables.specs.Words.{nodes, tag};
ghost use Rattle.selection.specs.Ways.{takes, stays, last};
ghost use Rattle.verdict_entering.specs.Entering.{entered};
ghost use Rattle.verdict_entering.specs.Climbing.{has, leaves, Fitting, Clear, Reached, Climbed, Handed, Written};

use pattern_step::stays;
use tables::words::{byte, first_word, second_word};

// Whether the row has node v.
fn holds(row: &[u8], v: usize) -> bool
    ensures { result ≡ has row.now v }
{
    byte(row, v) == 1
}

// Whether step i takes this label.
fn taking(p: &[u16], i: usize, l: usize) -> bool
    ensures { result ≡ takes p.now i l }
{
    let x = second_word(p, i);
    x == 0 || x == l
}

// Whether the step after k lands on v and leaves a run in state k above it.
fn landing_above(r: &[u16], x: &[u16], k: usize, above: &[u8], v: usize) -> bool
    requires { k < word_limit }
    ensures { result ≡ (has above.now v && takes r.now (suc k) (tag x.now v)) }
{
    holds(above, v) && taking(r, k + 1, second_word(x, v))
}

// Whether a run passes over v in state k.
fn passing_above(r: &[u16], k: usize, own: &[u8], v: usize) -> bool
    ensures { result ≡ (has own.now v && stays r.now false k) }
{
    holds(own, v) && stays(r, false, k)
}

// Whether, from the row of the next state and that of state k, a run is in state k above v's label.
fn leaving(r: &[u16], x: &[u16], k: usize, above: &[u8], own: &[u8], v: usize) -> bool
    requires { k < word_limit }
    ensures { result ≡ leaves r.now x.now k above.now own.now v }
{
    landing_above(r, x, k, above, v) || passing_above(r, k, own, v)
}

// If a run leaves node v in state k, the row has its parent.
fn climb_node(r: &[u16], x: &[u16], k: usize, above: &[u8], own: &mut [u8], v: usize)
    requires fitting { Fitting r.now x.now }
    requires k_bound { k < last r.now }
    requires reached { Reached r.now x.now (suc k) above.now }
    requires climbed { Climbed r.now x.now k above.now (v + 1) own.old }
    requires v_nonzero { (0 < v) × (v < nodes x.now) }
    ensures { Climbed r.now x.now k above.now v own.new }
{
    let u = first_word(x, v);
    if leaving(r, x, k, above, own, v) {
        own[u] = 1;
    }
}

// The row of state k, from that of the next: every node but the root, from the last down.
fn climb(r: &[u16], x: &[u16], k: usize, above: &[u8], own: &mut [u8])
    requires fitting { Fitting r.now x.now }
    requires k_bound { k < last r.now }
    requires reached { Reached r.now x.now (suc k) above.now }
    requires clear { Clear (nodes x.now) own.old }
    ensures { Reached r.now x.now k own.new }
{
    for v in (1..x.len() / 2).rev() {
        climb_node(r, x, k, above, own, v);
    }
}

// The byte of state k: 1 where what leaves the root is in state k.
fn root_byte(r: &[u16], x: &[u16], k: usize, above: &[u8], own: &[u8]) -> u8
    requires fitting { Fitting r.now x.now }
    requires k_bound { k < last r.now }
    requires reached { Reached r.now x.now (suc k) above.now }
    requires reached_2 { Reached r.now x.now k own.now }
    ensures { result ≡ entered r.now x.now k }
{
    u8::from(leaving(r, x, k, above, own, 0))
}

// The own row becomes the one of the next state, and is clear itself: the bytes of n nodes.
fn hand_over(n: usize, above: &mut [u8], own: &mut [u8])
    requires { (n ≤ length above.old) × (n ≤ length own.old) }
    ensures { Handed own.old n above.new own.new }
{
    for v in 0..n {
        above[v] = own[v];
        own[v] = 0;
    }
}

// The byte of state k, from the row of the next state; that row becomes the one of state k.
fn state_byte(r: &[u16], x: &[u16], k: usize, above: &mut [u8], own: &mut [u8]) -> u8
    requires fitting { Fitting r.now x.now }
    requires k_bound { k < last r.now }
    requires reached { Reached r.now x.now (suc k) above.old }
    requires clear { Clear (nodes x.now) own.old }
    ensures { (result ≡ entered r.now x.now k) × Reached r.now x.now k above.new × Clear (nodes x.now) own.new }
{
    climb(r, x, k, above, own);
    let b = root_byte(r, x, k, above, own);
    hand_over(x.len() / 2, above, own);
    b
}

// The bytes of all states before the last, from the last down.
pub(crate) fn write_states(
    r: &[u16],
    x: &[u16],
    above: &mut [u8],
    own: &mut [u8],
    states: &mut [u8],
)
    requires fitting { Fitting r.now x.now }
    requires reached { Reached r.now x.now (last r.now) above.old }
    requires clear { Clear (nodes x.now) own.old }
    requires written { Written r.now x.now (last r.now) states.old }
    ensures { Written r.now x.now 0 states.new }
{
    for k in (0..r.len() / 2 - 1).rev() {
        states[k] = state_byte(r, x, k, above, own);
    }
}
