// Delete, for every caller.
#![tactic(auto)]

mod striking;

ghost use Rattle.std.specs.Prelude.{◌≤◌, ◌≡◌, ltb, length};
ghost use Rattle.tables.specs.Limits.{used_limit};
ghost use Rattle.tables.specs.Words.{steps};
ghost use Rattle.tables.specs.Documents.{doc};
ghost use Rattle.tables.specs.Checks.{test, refuse};
ghost use Rattle.identities.specs.Documents.{document};
ghost use Rattle.doc_updates.specs.Updating.{delete_tables_check, Delete, DeleteTables};
ghost use Rattle.doc_updates.specs.Asking.{Asked};

use crate::striking::strike;
use check_identities::{identities, refusal_before};
use doc_read::read::reading;
use tables::limits::USED_LIMIT;
use tables::refusal::{Reason, Refusal, refused};

// 6 for a pattern of one step: a delete leaves the root.
fn below_root(p: &[u16]) -> Result<(), Refusal>
    ensures { result ≡ test (ltb 1 (steps p.now)) (refuse 6 2 0) }
{
    if p.len() / 2 <= 1 {
        return refused(Reason::OneStep, 2, 0);
    }
    Ok(())
}

// The refusals of a delete, and the row of selected nodes where there is none.
fn asked(p: &[u16], rows: &[u16], marks: &[u8], used: usize, row: &mut [u8]) -> Result<(), Refusal>
    requires { used_limit ≤ length row.old }
    ensures { Asked (delete_tables_check p.now (doc rows.now marks.now used)) p.now (doc rows.now marks.now used) row.old row.new result }
{
    reading(p, 2, rows, marks, used, row)?;
    below_root(p)
}

// Deleting on tables without identities: every selected node and everything below is marked as removed; how many newly.
pub fn deleting(p: &[u16], rows: &[u16], marks: &mut [u8], used: usize) -> Result<usize, Refusal>
    ensures { DeleteTables p.now (doc rows.now marks.old used) marks.old marks.new result }
{
    let mut row = [0u8; USED_LIMIT];
    asked(p, rows, marks, used, &mut row)?;
    Ok(strike(rows, marks, used, &mut row))
}

// Delete: every selected node and everything below is marked as removed; how many newly. Identities stay with their nodes.
pub fn delete(
    p: &[u16],
    rows: &[u16],
    marks: &mut [u8],
    used: usize,
    ids: &[u32],
    next: u32,
) -> Result<usize, Refusal>
    ensures { Delete p.now (document rows.now marks.old used ids.now next) marks.old marks.new result }
{
    match identities(ids, used, next) {
        Ok(()) => deleting(p, rows, marks, used),
        Err(r) => Err(refusal_before(rows, marks, used, r)),
    }
}
