// Insert, for every caller.
#![tactic(auto)]

mod naming;

ghost use Rattle.std.specs.Prelude.{◌+◌, ◌*◌, ◌/◌, ◌≤◌, ◌≡◌, length};
ghost use Rattle.tables.specs.Limits.{used_limit};
ghost use Rattle.tables.specs.Documents.{doc};
ghost use Rattle.tables.specs.Checks.{◌then◌};
ghost use Rattle.identities.specs.Documents.{document};
ghost use Rattle.identities.specs.Updates.{written};
ghost use Rattle.doc_updates.specs.Updating.{insert_check, insert_answer, Insert};
ghost use Rattle.doc_updates.specs.Asking.{tables_check, Asked};
ghost use Rattle.doc_insert.specs.Planning.{Small, left_check, Planned};

use crate::naming::name_copies;
use check_identities::{identities, refusal_before};
use check_tree::tree;
use doc_graft::grafts;
use doc_read::read::reading;
use doc_room::{counted, room};
use outcomes::updates::Inserted;
use tables::limits::{TREE_LIMIT, USED_LIMIT};
use tables::refusal::Refusal;

// The refusals of the document, the pattern and the tree, and the row of selected nodes where there is none.
fn asked(
    p: &[u16],
    x: &[u16],
    rows: &[u16],
    marks: &[u8],
    used: usize,
    row: &mut [u8],
) -> Result<(), Refusal>
    requires { used_limit ≤ length row.old }
    ensures { Asked (tables_check p.now x.now (doc rows.now marks.now used)) p.now (doc rows.now marks.now used) row.old row.new result }
{
    reading(p, 2, rows, marks, used, row)?;
    tree(x, TREE_LIMIT, 3)
}

// The answer of an insert of so many copies of so many nodes, into tables and a row of identities of these lengths.
fn answered(
    used: usize,
    copies: usize,
    nodes: usize,
    next: usize,
    words: usize,
    marks: usize,
    ids: usize,
) -> Result<Inserted, Refusal>
    requires { Small used copies nodes next }
    ensures { result ≡ insert_answer (left_check (used + copies * nodes) (next + copies * nodes) words marks ids) copies (used + copies * nodes) (next + copies * nodes) }
{
    let new = copies * nodes;
    let end = used + new;
    let last = next + new;
    room(end, last, words, marks, ids)?;
    Ok(Inserted {
        copies,
        used: end,
        next: last,
    })
}

// The answer of an insert before anything is written, and the row of selected nodes where there is room. The row of identities has so many,
// and they are right.
fn planned_tables(
    p: &[u16],
    x: &[u16],
    rows: &[u16],
    marks: &[u8],
    used: usize,
    ids: usize,
    next: u32,
    row: &mut [u8],
) -> Result<Inserted, Refusal>
    requires { used_limit ≤ length row.old }
    ensures { Planned (tables_check p.now x.now (doc rows.now marks.now used) then left_check (used + written p.now x.now (doc rows.now marks.now used)) (next + written p.now x.now (doc rows.now marks.now used)) (length rows.now) (length marks.now) ids) p.now x.now (doc rows.now marks.now used) next row.old row.new result }
{
    asked(p, x, rows, marks, used, row)?;
    let copies = counted(row, used);
    answered(
        used,
        copies,
        x.len() / 2,
        next as usize,
        rows.len(),
        marks.len(),
        ids,
    )
}

// The same, where identities may be wrong.
fn planned(
    p: &[u16],
    x: &[u16],
    rows: &[u16],
    marks: &[u8],
    used: usize,
    ids: &[u32],
    next: u32,
    row: &mut [u8],
) -> Result<Inserted, Refusal>
    requires { used_limit ≤ length row.old }
    ensures { Planned (insert_check p.now x.now (document rows.now marks.now used ids.now next)) p.now x.now (doc rows.now marks.now used) next row.old row.new result }
{
    match identities(ids, used, next) {
        Ok(()) => planned_tables(p, x, rows, marks, used, ids.len(), next, row),
        Err(r) => Err(refusal_before(rows, marks, used, r)),
    }
}

// Insert: a copy of x under each selected node, in rising number, behind the nodes already there, with the next identities in that order.
pub fn insert(
    p: &[u16],
    x: &[u16],
    rows: &mut [u16],
    marks: &mut [u8],
    used: usize,
    ids: &mut [u32],
    next: u32,
) -> Result<Inserted, Refusal>
    ensures { Insert p.now x.now (document rows.old marks.old used ids.old next) rows.old marks.old ids.old rows.new marks.new ids.new result }
{
    let mut row = [0u8; USED_LIMIT];
    let made = planned(p, x, rows, marks, used, ids, next, &mut row)?;
    grafts(x, rows, marks, used, &row);
    name_copies(ids, used, made.used - used, next);
    Ok(made)
}
