// The room of an insert: how many copies there are to make, and whether there are identities and room for them.
#![tactic(auto)]

ghost use Rattle.std.specs.Prelude.{◌/◌, min, ◌≡◌, leb};
ghost use Rattle.tables.specs.Limits.{identity_limit};
ghost use Rattle.tables.specs.Documents.{capacity};
ghost use Rattle.tables.specs.Checks.{◌then◌, test, refuse};
ghost use Rattle.selection.specs.Lists.{count};
ghost use Rattle.doc_updates.specs.Asking.{chosen};
ghost use Rattle.doc_room.specs.Ticking.{ticked};

use tables::limits::{IDENTITY_LIMIT, USED_LIMIT};
use tables::refusal::{Reason, Refusal, refused};
use tables::words::byte;

// 1 for a chosen node, else 0.
fn one(b: usize) -> usize
    ensures { result ≡ ticked b }
{
    if b == 1 {
        return 1;
    }
    0
}

// How many used nodes the row has chosen.
pub fn counted(row: &[u8], used: usize) -> usize
    ensures { result ≡ count (chosen row.now) used }
{
    let mut n: usize = 0;
    for v in 0..used {
        n += one(byte(row, v));
    }
    n
}

// The lesser of two numbers.
fn lesser(a: usize, b: usize) -> usize
    ensures { result ≡ min a b }
{
    if a < b {
        return a;
    }
    b
}

// 11 where so many nodes pass the least of 4,096, half the table's words, the marks and the identities.
fn fitting(end: usize, words: usize, marks: usize, ids: usize) -> Result<(), Refusal>
    ensures { result ≡ test (leb end (min (capacity words marks) ids)) (refuse 11 4 0) }
{
    let most = lesser(USED_LIMIT, lesser(words / 2, marks));
    let least = lesser(most, ids);
    if least < end {
        return refused(Reason::Room, 4, 0);
    }
    Ok(())
}

// 16 where the next identity would pass 4,294,967,295.
fn naming(next: usize) -> Result<(), Refusal>
    ensures { result ≡ test (leb next identity_limit) (refuse 16 5 0) }
{
    if IDENTITY_LIMIT < next {
        return refused(Reason::Identity, 5, 0);
    }
    Ok(())
}

// The room of an insert behind which there are so many nodes and this next identity: 16, then 11.
pub fn room(end: usize, next: usize, words: usize, marks: usize, ids: usize) -> Result<(), Refusal>
    ensures { result ≡ (test (leb next identity_limit) (refuse 16 5 0) then test (leb end (min (capacity words marks) ids)) (refuse 11 4 0)) }
{
    naming(next)?;
    fitting(end, words, marks, ids)
}
