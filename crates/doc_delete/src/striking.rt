// Striking a document: which nodes a delete removes, one pass over the row of selected nodes.
ghost use Rattle.std.specs.Prelude.{◌≡◌, cond, eqb};
ghost use Rattle.tables.specs.Documents.{doc};
ghost use Rattle.doc_delete.specs.Striking.{strikes, Strikable, Strikes};

use tables::words::{byte, first_word};

// 1 for a present node that is selected or below a struck one, else 0.
fn struck(mark: u8, own: usize, above: usize) -> u8
    ensures { result ≡ strikes mark own above }
{
    if mark != 0 {
        return 0;
    }
    if own == 1 {
        return 1;
    }
    if above == 1 {
        return 1;
    }
    0
}

// A struck node's mark is 1, another's stays.
fn marked(hit: u8, mark: u8) -> u8
    ensures { result ≡ cond (eqb hit 1) 1 mark }
{
    if hit == 1 {
        return 1;
    }
    mark
}

// Every node in rising number, so each parent before its children: its byte and its mark are 1 where it is struck. How many are.
pub(crate) fn strike(rows: &[u16], marks: &mut [u8], used: usize, row: &mut [u8]) -> usize
    requires { Strikable (doc rows.now marks.old used) row.old }
    ensures { Strikes (doc rows.now marks.old used) row.old marks.new result }
{
    let mut n: usize = 0;
    for v in 0..used {
        let mark = marks[v];
        let own = byte(row, v);
        let above = byte(row, first_word(rows, v));
        let hit = struck(mark, own, above);
        row[v] = hit;
        marks[v] = marked(hit, mark);
        n += hit as usize;
    }
    n
}
