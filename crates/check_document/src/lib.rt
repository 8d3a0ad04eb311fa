// The check of a document, by document 01's order.
#![tactic(auto)]

ghost use Rattle.std.specs.Prelude.{ℕ, max, ◌<◌, ◌≤◌, ◌≡◌, false, ◌↔◌, length, get_or};
ghost use Rattle.tables.specs.Limits.{used_limit};
ghost use Rattle.tables.specs.Words.{nodes};
ghost use Rattle.tables.specs.Documents.{doc};
ghost use Rattle.tables.specs.Checks.{each, node_check, used_right, shape_check, mark_check, document_check, Fine};

use check_tree::nodes;
use tables::limits::USED_LIMIT;
use tables::refusal::{Reason, Refusal, refused};

// Whether a used count is right for a table of so many words and a row of so many marks.
fn used_right(words: usize, marks: usize, used: usize) -> bool
    ensures { result ≡ used_right words marks used }
{
    if used == 0 {
        return false;
    }
    if USED_LIMIT < used {
        return false;
    }
    if words / 2 < used {
        return false;
    }
    used <= marks
}

// 1 where there is a fault, else 0.
fn one(fault: bool) -> u16
    ensures { (result ≤ 1) × ((result ≡ 0) ↔ (fault ≡ false)) }
{
    fault as u16
}

// How many of two words are wrong: a parent that is not below the bound, a label that is 0.
fn wrong(u: u16, bound: u16, label: u16) -> u16
    ensures { (result ≤ 2) × ((result ≡ 0) ↔ ((u < bound) × (0 < label))) }
{
    one(bound <= u) + one(label == 0)
}

// How many parents and labels of the used nodes are wrong: 0 exactly where each node is right. The root's bound is 1.
fn wrongs(t: &[u16], used: usize) -> u16
    requires { (0 < used) × (used ≤ used_limit) × (used ≤ nodes t.now) }
    ensures { (result ≡ 0) ↔ ((v : ℕ) → v < used → node_check t.now 5 v ≡ Fine) }
{
    let mut count = wrong(t[0], 1, t[1]);
    for v in 1..used {
        count += wrong(t[2 * v], v as u16, t[2 * v + 1]);
    }
    count
}

// The first of the used nodes that is wrong.
fn used_nodes(t: &[u16], used: usize) -> Result<(), Refusal>
    requires { (0 < used) × (used ≤ used_limit) × (used ≤ nodes t.now) }
    ensures { result ≡ each (node_check t.now 5) 0 used }
{
    if wrongs(t, used) == 0 {
        return Ok(());
    }
    nodes(t, 5, used)
}

// The greater of two marks.
fn greater(a: u8, b: u8) -> u8
    ensures { result ≡ max a b }
{
    if a < b {
        return b;
    }
    a
}

// The greatest mark of the used nodes: 0 exactly where each is 0.
fn greatest(m: &[u8], used: usize) -> u8
    requires { used ≤ length m.now }
    ensures { (result ≡ 0) ↔ ((v : ℕ) → v < used → get_or m.now v 0 ≡ 0) }
{
    let mut most = 0;
    for v in 0..used {
        most = greater(most, m[v]);
    }
    most
}

// How many faults a mark has: it is over 1, it is less than its parent's.
fn wrong_mark(own: u8, above: u8) -> u16
    ensures { (result ≤ 2) × ((result ≡ 0) ↔ ((own ≤ 1) × (above ≤ own))) }
{
    one(1 < own) + one(own < above)
}

// How many faults the used nodes' marks have, where the nodes are right: 0 exactly where each mark is right. The root's is 0.
fn wrong_marks(t: &[u16], m: &[u8], used: usize) -> u16
    requires { (0 < used) × (used ≤ used_limit) × (used ≤ nodes t.now) × (used ≤ length m.now) × (each (node_check t.now 5) 0 used ≡ Fine) }
    ensures { (result ≡ 0) ↔ ((v : ℕ) → v < used → mark_check t.now m.now v ≡ Fine) }
{
    let mut count = one(0 < m[0]);
    for node in 1..used {
        count += wrong_mark(m[node], m[t[2 * node] as usize]);
    }
    count
}

// The used nodes' marks, where the nodes are right: one refusal, whichever mark is wrong.
fn used_marks(t: &[u16], m: &[u8], used: usize) -> Result<(), Refusal>
    requires { (0 < used) × (used ≤ used_limit) × (used ≤ nodes t.now) × (used ≤ length m.now) × (each (node_check t.now 5) 0 used ≡ Fine) }
    ensures { result ≡ each (mark_check t.now m.now) 0 used }
{
    if greatest(m, used) == 0 {
        return Ok(());
    }
    if wrong_marks(t, m, used) == 0 {
        return Ok(());
    }
    refused(Reason::Document, 5, 0)
}

// The shape of a document: 12 for the used count, then node by node 4 then 5. No mark is looked at.
pub fn shape(rows: &[u16], marks: &[u8], used: usize) -> Result<(), Refusal>
    ensures { result ≡ shape_check (doc rows.now marks.now used) }
{
    if !used_right(rows.len(), marks.len(), used) {
        return refused(Reason::Document, 5, 0);
    }
    used_nodes(rows, used)
}

// A document: 12 for the used count, node by node 4 then 5, 12 for marks.
pub fn document(rows: &[u16], marks: &[u8], used: usize) -> Result<(), Refusal>
    ensures { result ≡ document_check (doc rows.now marks.now used) }
{
    shape(rows, marks, used)?;
    used_marks(rows, marks, used)
}
