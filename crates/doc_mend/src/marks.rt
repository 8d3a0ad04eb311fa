// Mending in two passes over the used nodes, in rising number, so that each parent's mark is mended before its children's: one that counts the changes, in a row
// of its own, and one that makes and lists them, where the list has room for all.
ghost use Rattle.std.specs.Prelude.{◌+◌, ◌*◌, ◌<◌, ◌≤◌, ◌≡◌, cond, eqb, length, get_or, set};
ghost use Rattle.tables.specs.Limits.{used_limit};
ghost use Rattle.tables.specs.Words.{parent};
ghost use Rattle.tables.specs.Documents.{doc};
ghost use Rattle.tables.specs.Checks.{shape_check, Fine};
ghost use Rattle.mending.specs.Mending.{mended_marks, changes, change_list};
ghost use Rattle.doc_mend.specs.Writing.{Reached, Counted, Putting, Put, following, Written};

use check_size::output;
use tables::limits::USED_LIMIT;
use tables::refusal::Refusal;
use tables::words::first_word;

// The mended mark of node v, whose own mark is `old`, where those of the nodes before it stand in the row.
fn mended(t: &[u16], old: u8, row: &[u8], v: usize) -> u8
    requires { parent t.now v < length row.now }
    ensures { result ≡ following t.now old row.now v }
{
    if v == 0 {
        return 0;
    }
    if old == 0 {
        return row[first_word(t, v)];
    }
    1
}

// 1 where a mark becomes another, else 0.
fn change(before: u8, after: u8) -> usize
    ensures { result ≡ cond (eqb before after) 0 1 }
{
    if before == after {
        return 0;
    }
    1
}

// Node v's mended mark into the row; 1 where it becomes another.
fn counted(t: &[u16], m: &[u8], row: &mut [u8], v: usize) -> usize
    requires { Reached t.now m.now row.old v }
    ensures { Counted t.now m.now v row.old row.new result }
{
    let old = m[v];
    let new = mended(t, old, row, v);
    row[v] = new;
    change(old, new)
}

// The mended marks of the used nodes into the row; how many become others.
fn count(t: &[u16], m: &[u8], used: usize, row: &mut [u8]) -> usize
    requires { (shape_check (doc t.now m.now used) ≡ Fine) × (used ≤ length row.old) }
    ensures { result ≡ changes (doc t.now m.now used) }
{
    let mut n = 0;
    for v in 0..used {
        n += counted(t, m, row, v);
    }
    n
}

// How many marks become others.
fn change_count(t: &[u16], m: &[u8], used: usize) -> usize
    requires { shape_check (doc t.now m.now used) ≡ Fine }
    ensures { result ≡ changes (doc t.now m.now used) }
{
    let mut row = [0u8; USED_LIMIT];
    count(t, m, used, &mut row)
}

// Three words of the list, from `at` on: node number, old mark, new mark.
fn listed(list: &mut [u16], at: usize, v: usize, old: u8, new: u8)
    requires { (v < used_limit) × (at + 2 < length list.old) }
    ensures { list.new ≡ set (set (set list.old at v) (at + 1) old) (at + 2) new }
{
    list[at] = v as u16;
    list[at + 1] = u16::from(old);
    list[at + 2] = u16::from(new);
}

// The new mark of node v and, where it is another, its three words. Where the next three go.
fn put(marks: &mut [u8], list: &mut [u16], v: usize, new: u8, at: usize) -> usize
    requires { Putting marks.old list.old v new at }
    ensures { Put v new at marks.old list.old marks.new list.new result }
{
    let old = marks[v];
    if old == new {
        return at;
    }
    marks[v] = new;
    listed(list, at, v, old, new);
    at + 3
}

// The same, with the mended mark of node v.
fn put_mended(t: &[u16], marks: &mut [u8], list: &mut [u16], v: usize, at: usize) -> usize
    requires { Reached t.now marks.old marks.old v × Putting marks.old list.old v (following t.now (get_or marks.old v 0) marks.old v) at }
    ensures { Put v (following t.now (get_or marks.old v 0) marks.old v) at marks.old list.old marks.new list.new result }
{
    let new = mended(t, marks[v], marks, v);
    put(marks, list, v, new, at)
}

// Every mark that becomes another, with its three words.
fn put_all(t: &[u16], marks: &mut [u8], used: usize, list: &mut [u16])
    requires { (shape_check (doc t.now marks.old used) ≡ Fine) × (3 * changes (doc t.now marks.old used) ≤ length list.old) }
    ensures { (marks.new ≡ mended_marks (doc t.now marks.old used)) × (list.new ≡ change_list (doc t.now marks.old used) list.old) }
{
    let mut at = 0;
    for v in 0..used {
        at = put_mended(t, marks, list, v, at);
    }
}

// All of it: 7 where the list is too short, else the changes made and listed.
pub(crate) fn written(
    t: &[u16],
    marks: &mut [u8],
    used: usize,
    list: &mut [u16],
) -> Result<usize, Refusal>
    requires { shape_check (doc t.now marks.old used) ≡ Fine }
    ensures { Written (doc t.now marks.old used) list.old marks.new list.new result }
{
    let n = change_count(t, marks, used);
    output(3 * n, list.len())?;
    put_all(t, marks, used, list);
    Ok(n)
}
