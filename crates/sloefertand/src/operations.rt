// Reading, updating, compacting and mending a document.
ghost use Rattle.identities.specs.Documents.{document};
ghost use Rattle.doc_read.specs.Reading.{Read};
ghost use Rattle.doc_plain.specs.Plain.{PlainRead};
ghost use Rattle.doc_updates.specs.Updating.{Delete, Insert};
ghost use Rattle.doc_compact.specs.Compacting.{Compact};
ghost use Rattle.doc_mend.specs.Promise.{Mend};
ghost use Rattle.c_answer.specs.Answers.{Told};
ghost use Rattle.c_numbers.specs.Numbers.{of_checked, of_deleted, of_inserted, of_compacted, of_mended};

use c_answer::answer::Answer;
use c_numbers::numbers;
use doc_compact::compact;
use doc_delete::delete;
use doc_insert::insert;
use doc_mend::mend;
use doc_plain::plain_reading;
use doc_read::read::read;

// Read: one byte a used node, 1 if the pattern selects it, else 0. No value.
pub fn sloefertand_v2_read(
    p: &[u16],
    rows: &[u16],
    marks: &[u8],
    used: usize,
    ids: &[u32],
    next: u32,
    row: &mut [u8],
) -> Answer
    ensures { Told of_checked (Read p.now (document rows.now marks.now used ids.now next) row.old row.new) result }
{
    numbers(read(p, rows, marks, used, ids, next, row))
}

// The plain reading of a small bare tree: one byte a node. No value.
pub fn sloefertand_plain_reading(p: &[u16], t: &[u16], row: &mut [u8]) -> Answer
    ensures { Told of_checked (PlainRead p.now t.now row.old row.new) result }
{
    numbers(plain_reading(p, t, row))
}

// Delete: selected nodes and all below are marked as removed. First: how many newly.
pub fn sloefertand_v2_delete(
    p: &[u16],
    rows: &[u16],
    marks: &mut [u8],
    used: usize,
    ids: &[u32],
    next: u32,
) -> Answer
    ensures { Told of_deleted (Delete p.now (document rows.now marks.old used ids.now next) marks.old marks.new) result }
{
    numbers(delete(p, rows, marks, used, ids, next))
}

// Insert: a copy of x under each selected node. First: the copies; second: the new used count; third: the new next identity.
pub fn sloefertand_v2_insert(
    p: &[u16],
    x: &[u16],
    rows: &mut [u16],
    marks: &mut [u8],
    used: usize,
    ids: &mut [u32],
    next: u32,
) -> Answer
    ensures { Told of_inserted (Insert p.now x.now (document rows.old marks.old used ids.old next) rows.old marks.old ids.old rows.new marks.new ids.new) result }
{
    numbers(insert(p, x, rows, marks, used, ids, next))
}

// Compaction: removed nodes are dropped, and the rest is closed up in order. First: the new used count; second: how many were dropped.
pub fn sloefertand_compact(
    rows: &mut [u16],
    marks: &mut [u8],
    used: usize,
    ids: &mut [u32],
    next: u32,
) -> Answer
    ensures { Told of_compacted (Compact (document rows.old marks.old used ids.old next) rows.old marks.old ids.old rows.new marks.new ids.new) result }
{
    numbers(compact(rows, marks, used, ids, next))
}

// Mending: the marks are made those of a sound document, and the list takes three words for each that ended up different: node number, old mark, new mark.
// First: how many.
pub fn sloefertand_mend(
    rows: &[u16],
    marks: &mut [u8],
    used: usize,
    ids: &[u32],
    next: u32,
    list: &mut [u16],
) -> Answer
    ensures { Told of_mended (Mend (document rows.now marks.old used ids.now next) marks.old list.old marks.new list.new) result }
{
    numbers(mend(rows, marks, used, ids, next, list))
}
