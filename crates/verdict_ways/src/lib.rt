// The shortest way on which a read and an update show a conflict, counted and written; and the tests of the deep verdict, by one way each.
#![tactic(auto)]

ghost use Rattle.std.specs.Prelude.{◌<◌, ◌≡◌, false, [], length, true};
ghost use Rattle.tables.specs.Limits.{step_limit};
ghost use Rattle.tables.specs.Checks.{where_fine, Fine};
ghost use Rattle.conflict.specs.Crossing.{delete_way, insert_way, delete_deep, insert_deep};
ghost use Rattle.check_verdict.specs.Order.{deep_delete_check, deep_insert_check, delete_verdict_check, insert_verdict_check};
ghost use Rattle.verdict_ways.specs.Marked.{Only};
ghost use Rattle.verdict_ways.specs.Ways.{WayWritten};

use check_verdict::{deep_delete_check, deep_insert_check, delete_check, insert_check};
use tables::limits::STEP_LIMIT;
use verdict_entering::entering_states;
use verdict_meeting::meet;

// A byte for every state, with a 1 at state i.
fn only(i: usize) -> [u8; STEP_LIMIT]
    requires { i < step_limit }
    ensures { Only i result }
{
    let mut states = [0; STEP_LIMIT];
    states[i] = 1;
    states
}

// The shortest way that an admitted read selects and an admitted delete hits.
fn shortest_delete(r: &[u16], p: &[u16], out: &mut [u16]) -> usize
    requires { delete_verdict_check r.now p.now (length out.old) ≡ Fine }
    ensures { WayWritten (delete_way r.now p.now) out.old out.new result }
{
    let i = r.len() / 2 - 1;
    let j = p.len() / 2 - 1;
    let states = only(i);
    meet(r, false, p, true, &states, j, out)
}

// The shortest way that an admitted insert selects and from which the read enters the inserted tree.
fn shortest_insert(r: &[u16], p: &[u16], x: &[u16], out: &mut [u16]) -> usize
    requires { insert_verdict_check r.now p.now x.now (length out.old) ≡ Fine }
    ensures { WayWritten (insert_way r.now p.now x.now) out.old out.new result }
{
    let j = p.len() / 2 - 1;
    let states = entering_states(r, x);
    meet(r, false, p, false, &states, j, out)
}

// Whether some way is one that an admitted read and an admitted delete both hit; the way is counted, and written nowhere.
fn both_hit(r: &[u16], p: &[u16]) -> bool
    requires { deep_delete_check r.now p.now ≡ Fine }
    ensures { result ≡ delete_deep r.now p.now }
{
    let i = r.len() / 2 - 1;
    let end = p.len() / 2 - 1;
    let states = only(i);
    let mut nowhere = [0; 1];
    0 < meet(r, true, p, true, &states, end, &mut nowhere)
}

// Whether some way leads to an update point of an admitted insert from which the read enters the inserted tree, or at or above which it
// selects: the read's last state is marked with those from which it enters.
fn entered_or_hit(r: &[u16], p: &[u16], x: &[u16]) -> bool
    requires { deep_insert_check r.now p.now x.now ≡ Fine }
    ensures { result ≡ insert_deep r.now p.now x.now }
{
    let last = r.len() / 2 - 1;
    let point = p.len() / 2 - 1;
    let mut states = entering_states(r, x);
    states[last] = 1;
    let mut nowhere = [0; 1];
    0 < meet(r, true, p, false, &states, point, &mut nowhere)
}

// The shortest way that the read selects and the delete hits: how many labels it has, 0 for none, and its chain at the front of the output.
pub fn delete_way(r: &[u16], p: &[u16], out: &mut [u16]) -> usize
    ensures { WayWritten (where_fine (delete_verdict_check r.now p.now (length out.old)) (delete_way r.now p.now) []) out.old out.new result }
{
    match delete_check(r, p, out.len()) {
        Ok(()) => shortest_delete(r, p, out),
        Err(_) => 0,
    }
}

// The same of a read and an insert: the way to an update point from which the read enters the inserted tree.
pub fn insert_way(r: &[u16], p: &[u16], x: &[u16], out: &mut [u16]) -> usize
    ensures { WayWritten (where_fine (insert_verdict_check r.now p.now x.now (length out.old)) (insert_way r.now p.now x.now) []) out.old out.new result }
{
    match insert_check(r, p, x, out.len()) {
        Ok(()) => shortest_insert(r, p, x, out),
        Err(_) => 0,
    }
}

// The deep verdict's test of a read and a delete: whether some way is one that both hit.
pub fn delete_deep(r: &[u16], p: &[u16]) -> bool
    ensures { result ≡ where_fine (deep_delete_check r.now p.now) (delete_deep r.now p.now) false }
{
    match deep_delete_check(r, p) {
        Ok(()) => both_hit(r, p),
        Err(_) => false,
    }
}

// The same of a read and an insert: whether some way shows a conflict, or has an update point at or below a node that the read selects.
pub fn insert_deep(r: &[u16], p: &[u16], x: &[u16]) -> bool
    ensures { result ≡ where_fine (deep_insert_check r.now p.now x.now) (insert_deep r.now p.now x.now) false }
{
    match deep_insert_check(r, p, x) {
        Ok(()) => entered_or_hit(r, p, x),
        Err(_) => false,
    }
}
