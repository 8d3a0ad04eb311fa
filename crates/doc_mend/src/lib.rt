// Mending the marks of a document, for every caller.
#![tactic(auto)]

mod marks;

ghost use Rattle.std.specs.Prelude.{◌≡◌};
ghost use Rattle.tables.specs.Documents.{doc};
ghost use Rattle.tables.specs.Checks.{◌then◌, shape_check};
ghost use Rattle.identities.specs.Documents.{document};
ghost use Rattle.identities.specs.Checks.{identities_check};
ghost use Rattle.doc_mend.specs.Promise.{Mend};

use crate::marks::written;
use check_document::shape;
use check_identities::identities;
use tables::refusal::Refusal;

// What is asked before the list is made: 12 for the used count, node by node 4 then 5, 12 for identities.
fn mendable(rows: &[u16], marks: &[u8], used: usize, ids: &[u32], next: u32) -> Result<(), Refusal>
    ensures { result ≡ (shape_check (doc rows.now marks.now used) then identities_check ids.now used next) }
{
    shape(rows, marks, used)?;
    identities(ids, used, next)
}

// Mending: the root's mark becomes 0, any other above 1 becomes 1, then each present node under a removed one becomes removed. The list takes three words
// for each mark that ended up different: node number, old mark, new mark. How many there are.
pub fn mend(
    rows: &[u16],
    marks: &mut [u8],
    used: usize,
    ids: &[u32],
    next: u32,
    list: &mut [u16],
) -> Result<usize, Refusal>
    ensures { Mend (document rows.now marks.old used ids.now next) marks.old list.old marks.new list.new result }
{
    mendable(rows, marks, used, ids, next)?;
    written(rows, marks, used, list)
}
