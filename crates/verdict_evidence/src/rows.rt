// The nodes of a proposed tree that a pattern selects, those at which steps of it stand, and those that a delete removes. None was removed before.
ghost use Rattle.std.specs.Prelude.{◌<◌, ◌≡◌};
ghost use Rattle.tables.specs.Limits.{step_limit, tree_limit};
ghost use Rattle.tables.specs.Words.{steps};
ghost use Rattle.tables.specs.Documents.{bare};
ghost use Rattle.tables.specs.Checks.{pattern_check, tree_check, Fine};
ghost use Rattle.doc_updates.specs.Asking.{Chosen};
ghost use Rattle.verdict_evidence.specs.Rows.{Cut, Standing};

use doc_delete::deleting;
use doc_read::read::{reading, reading_at};
use tables::limits::TREE_LIMIT;

// A row with 1 at the nodes that p selects; p is the pattern of that table.
pub(crate) fn selected_row(p: &[u16], table: usize, t: &[u16]) -> [u8; TREE_LIMIT]
    requires { (pattern_check p.now step_limit table ≡ Fine) × (tree_check t.now tree_limit 5 ≡ Fine) }
    ensures { Chosen p.now (bare t.now) result }
{
    let marks = [0u8; TREE_LIMIT];
    let mut row = [0u8; TREE_LIMIT];
    let _ = reading(p, table, t, &marks, t.len() / 2, &mut row);
    row
}

// A row with 1 at the nodes at which one of the wanted steps of the read stands.
pub(crate) fn standing_row(r: &[u16], wanted: &[u8], t: &[u16]) -> [u8; TREE_LIMIT]
    requires { (pattern_check r.now step_limit 1 ≡ Fine) × (tree_check t.now tree_limit 5 ≡ Fine) }
    ensures { Standing r.now wanted.now t.now result }
{
    let marks = [0u8; TREE_LIMIT];
    let mut row = [0u8; TREE_LIMIT];
    let _ = reading_at(r, 1, wanted, t, &marks, t.len() / 2, &mut row);
    row
}

// A row with 1 at the nodes that a delete by p removes.
pub(crate) fn removed_row(p: &[u16], t: &[u16]) -> [u8; TREE_LIMIT]
    requires { (pattern_check p.now step_limit 2 ≡ Fine) × (1 < steps p.now) × (tree_check t.now tree_limit 5 ≡ Fine) }
    ensures { Cut p.now t.now result }
{
    let mut marks = [0u8; TREE_LIMIT];
    let _ = deleting(p, t, &mut marks, t.len() / 2);
    marks
}
