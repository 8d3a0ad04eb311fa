// Copies of a tree into a document, one under each chosen node.
#![tactic(auto)]

ghost use Rattle.std.specs.Prelude.{◌≡◌, cond, eqb};
ghost use Rattle.tables.specs.Documents.{doc};
ghost use Rattle.selection.specs.Lists.{rising};
ghost use Rattle.doc_updates.specs.Asking.{chosen};
ghost use Rattle.doc_copy.specs.Copying.{copied};
ghost use Rattle.doc_graft.specs.Grafting.{copied_all};

use doc_copy::grafted;
use tables::words::byte;

// A node's turn: a copy under it where its byte is 1.
fn turn(x: &[u16], b: usize, q: usize, at: usize, rows: &mut [u16], marks: &mut [u8]) -> usize
    ensures { doc rows.new marks.new result ≡ cond (eqb b 1) (copied x.now q (doc rows.old marks.old at)) (doc rows.old marks.old at) }
{
    if b != 1 {
        return at;
    }
    grafted(x, q, at, rows, marks)
}

// A copy of x under each chosen node, in rising number, as long as copies fit. The new used count.
pub fn grafts(x: &[u16], rows: &mut [u16], marks: &mut [u8], used: usize, row: &[u8]) -> usize
    ensures { doc rows.new marks.new result ≡ copied_all x.now (rising (chosen row.now) used) (doc rows.old marks.old used) }
{
    let mut at = used;
    for v in 0..used {
        at = turn(x, byte(row, v), v, at, rows, marks);
    }
    at
}
