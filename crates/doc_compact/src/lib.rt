// Compaction, for every caller.
#![tactic(auto)]

mod closing;

ghost use Rattle.identities.specs.Documents.{document};
ghost use Rattle.doc_compact.specs.Compacting.{Compact};

use crate::closing::closed_up;
use check_identities::whole;
use outcomes::updates::Compacted;
use tables::refusal::Refusal;

// Compaction: removed nodes are dropped and the rest is closed up in order, in place; the new used count, and how many were dropped.
pub fn compact(
    rows: &mut [u16],
    marks: &mut [u8],
    used: usize,
    ids: &mut [u32],
    next: u32,
) -> Result<Compacted, Refusal>
    ensures { Compact (document rows.old marks.old used ids.old next) rows.old marks.old ids.old rows.new marks.new ids.new result }
{
    whole(rows, marks, used, ids, next)?;
    Ok(closed_up(rows, marks, used, ids))
}
