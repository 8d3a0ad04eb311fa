// Reading a document, for every caller.
ghost use Rattle.tables.specs.Documents.{doc};
ghost use Rattle.identities.specs.Documents.{document};
ghost use Rattle.doc_read.specs.Reading.{Read, ReadTables};
ghost use Rattle.doc_read.specs.Wanted.{ReadAt};

use crate::row::filled;
use crate::wanted::last_wanted;
use check_identities::{identities, refusal_before};
use check_read::checked;
use tables::refusal::Refusal;

// Reading at wanted steps: one byte a used node, 1 if it is present and a step whose byte is 1 stands there, else 0; later bytes of the row stay.
// The pattern's table at fault is named by the caller.
pub fn reading_at(
    p: &[u16],
    table: usize,
    wanted: &[u8],
    rows: &[u16],
    marks: &[u8],
    used: usize,
    row: &mut [u8],
) -> Result<(), Refusal>
    ensures { ReadAt p.now table (doc rows.now marks.now used) wanted.now row.old row.new result }
{
    checked(p, table, rows, marks, used, row.len())?;
    filled(p, wanted, rows, marks, used, row);
    Ok(())
}

// Reading tables without identities, the pattern's table at fault named by the caller.
pub fn reading(
    p: &[u16],
    table: usize,
    rows: &[u16],
    marks: &[u8],
    used: usize,
    row: &mut [u8],
) -> Result<(), Refusal>
    ensures { ReadTables p.now table (doc rows.now marks.now used) row.old row.new result }
{
    let wanted = last_wanted(p);
    reading_at(p, table, &wanted, rows, marks, used, row)
}

// Read: one byte a used node, 1 if the pattern selects it, else 0; later bytes of the row stay.
pub fn read(
    p: &[u16],
    rows: &[u16],
    marks: &[u8],
    used: usize,
    ids: &[u32],
    next: u32,
    row: &mut [u8],
) -> Result<(), Refusal>
    ensures { Read p.now (document rows.now marks.now used ids.now next) row.old row.new result }
{
    match identities(ids, used, next) {
        Ok(()) => reading(p, 1, rows, marks, used, row),
        Err(r) => Err(refusal_before(rows, marks, used, r)),
    }
}
