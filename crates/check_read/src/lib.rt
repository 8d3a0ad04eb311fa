// The refusals of a read, by document 01's order.
#![tactic(auto)]

ghost use Rattle.std.specs.Prelude.{◌≡◌};
ghost use Rattle.tables.specs.Limits.{step_limit};
ghost use Rattle.tables.specs.Documents.{doc};
ghost use Rattle.tables.specs.Checks.{◌then◌, pattern_check, output_check};
ghost use Rattle.check_read.specs.Readable.{read_tables_check};

use check_document::document;
use check_pattern::pattern;
use check_size::output;
use tables::limits::STEP_LIMIT;
use tables::refusal::Refusal;

// The pattern's refusals, then 7 for a row of fewer bytes than used nodes.
fn asked(p: &[u16], table: usize, used: usize, bytes: usize) -> Result<(), Refusal>
    ensures { result ≡ (pattern_check p.now step_limit table then output_check used bytes) }
{
    pattern(p, STEP_LIMIT, table)?;
    output(used, bytes)
}

// The refusals of a read: the document's, the pattern's, then 7.
pub fn checked(
    p: &[u16],
    table: usize,
    rows: &[u16],
    marks: &[u8],
    used: usize,
    bytes: usize,
) -> Result<(), Refusal>
    ensures { result ≡ read_tables_check p.now table (doc rows.now marks.now used) bytes }
{
    document(rows, marks, used)?;
    asked(p, table, used, bytes)
}
