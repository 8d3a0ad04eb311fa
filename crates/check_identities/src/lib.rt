// The check of identities, and of a document with them.
#![tactic(auto)]

ghost use Rattle.std.specs.Prelude.{ℕ, pred, ◌<◌, ◌≤◌, ◌≡◌, false, ◌↔◌, length, get_or};
ghost use Rattle.tables.specs.Documents.{doc};
ghost use Rattle.tables.specs.Checks.{◌then◌, document_check, Fine};
ghost use Rattle.identities.specs.Documents.{document};
ghost use Rattle.identities.specs.Checks.{identities_check, whole_check};

use check_document::document;
use tables::refusal::{Reason, Refusal, refused};

// 1 where there is a fault, else 0.
fn one(fault: bool) -> usize
    ensures { (result ≤ 1) × ((result ≡ 0) ↔ (fault ≡ false)) }
{
    fault as usize
}

// How many of the used nodes' identities are not above the one before: 0 exactly where they rise.
fn out_of_order(ids: &[u32], used: usize) -> usize
    requires { (0 < used) × (used ≤ length ids.now) }
    ensures { (result ≡ 0) ↔ ((v : ℕ) → v < used → 0 < v → get_or ids.now (pred v) 0 < get_or ids.now v 0) }
{
    let mut count = 0;
    for v in 1..used {
        count += one(ids[v] <= ids[v - 1]);
    }
    count
}

// The identities of the used nodes: one refusal, whatever is wrong. Where they rise, the last one tells that all are below the next.
pub fn identities(ids: &[u32], used: usize, next: u32) -> Result<(), Refusal>
    ensures { result ≡ identities_check ids.now used next }
{
    if ids.len() < used {
        return refused(Reason::Document, 5, 0);
    }
    if used == 0 {
        return Ok(());
    }
    if next <= ids[used - 1] {
        return refused(Reason::Document, 5, 0);
    }
    if out_of_order(ids, used) == 0 {
        return Ok(());
    }
    refused(Reason::Document, 5, 0)
}

// A document: its tables, then 12 for identities.
pub fn whole(rows: &[u16], marks: &[u8], used: usize, ids: &[u32], next: u32) -> Result<(), Refusal>
    ensures { result ≡ whole_check (document rows.now marks.now used ids.now next) }
{
    document(rows, marks, used)?;
    identities(ids, used, next)
}

// The refusal of a document whose identities are refused: that of its tables where they have one, else this one.
pub fn refusal_before(rows: &[u16], marks: &[u8], used: usize, r: Refusal) -> Refusal
    ensures { (document_check (doc rows.now marks.now used) then Err r) ≡ Err result }
{
    match document(rows, marks, used) {
        Ok(()) => r,
        Err(why) => why,
    }
}
