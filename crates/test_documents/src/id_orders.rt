// Table 12, the order of the checks: every call over a document with several faults at once, and all its rows after each call.
ghost use Rattle.std.specs.Prelude.{◌≤◌};

use c_answer::answer::Answer;
use sloefertand::checking::sloefertand_v2_check_document;
use sloefertand::operations::{
    sloefertand_compact, sloefertand_v2_delete, sloefertand_v2_insert, sloefertand_v2_read,
};
use std::io;
use std::io::Stdout;
use test_parts::digest::{bytes, halves, refusal, rows, taken};
use test_parts::numbering::front;
use test_parts::tally::{Tally, line, nothing, one_more};

// The calls by number.
const CHECK: usize = 0;

const READ: usize = 1;

const DELETE: usize = 2;

const INSERT: usize = 3;

const COMPACT: usize = 4;

// One of two numbers.
fn either(so: bool, yes: u16, no: u16) -> u16 {
    if so {
        return yes;
    }
    no
}

// The words of pattern k.
fn pattern(k: usize) -> [u16; 4] {
    [either(k == 4, 1, 0), 0, either(k == 5, 0, 2), 0]
}

// How many of them it has.
fn pattern_words(k: usize) -> usize {
    if k == 1 {
        return 0;
    }
    if k == 2 {
        return 3;
    }
    if k == 3 {
        return 2;
    }
    4
}

// The words of inserted tree k.
fn inserted(k: usize) -> [u16; 4] {
    [either(k == 3, 1, 0), 2, 0, either(k == 4, 0, 1)]
}

// How many of them it has.
fn inserted_words(k: usize) -> usize {
    if k == 1 {
        return 0;
    }
    if k == 2 {
        return 3;
    }
    4
}

// The document's words with damage k.
pub(crate) fn damaged_words(k: usize) -> [u16; 10] {
    [
        either(k == 1, 1, 0),
        1,
        0,
        either(k == 2, 0, 2),
        either(k == 3, 2, 1),
        3,
        0,
        0,
        0,
        0,
    ]
}

// One of two marks.
fn mark(so: bool, yes: u8, no: u8) -> u8 {
    if so {
        return yes;
    }
    no
}

// The third mark with damage k.
fn third_mark(k: usize) -> u8 {
    if k == 2 {
        return 2;
    }
    mark(k == 3, 0, 1)
}

// Its marks with damage k.
pub(crate) fn marking(k: usize) -> [u8; 5] {
    [mark(k == 1, 1, 0), mark(k == 3, 1, 0), third_mark(k), 9, 9]
}

// One of two identities.
fn id(so: bool, yes: u32, no: u32) -> u32 {
    if so {
        return yes;
    }
    no
}

// The second identity with damage k.
fn second_id(k: usize) -> u32 {
    if k == 2 {
        return 2;
    }
    id(k == 3, 10, 4)
}

// Its identities with damage k.
pub(crate) fn identities(k: usize) -> [u32; 5] {
    [
        id(k == 5, 4294967295, 2),
        second_id(k),
        id(k == 4, 11, 9),
        99999,
        99999,
    ]
}

// The used count with damage k.
pub(crate) fn used(k: usize) -> usize {
    if k == 1 {
        return 0;
    }
    if k == 2 {
        return 6;
    }
    3
}

// The words that are lent.
pub(crate) fn words_lent(k: usize) -> usize
    ensures { result ≤ 10 }
{
    if k == 3 {
        return 5;
    }
    10
}

// The marks that are lent.
pub(crate) fn marks_lent(k: usize) -> usize
    ensures { result ≤ 5 }
{
    if k == 4 {
        return 2;
    }
    5
}

// The identities that are lent, by their damage and the end.
pub(crate) fn ids_lent(k: usize, end: usize) -> usize
    ensures { result ≤ 5 }
{
    if k == 1 {
        return 2;
    }
    if 2 <= end {
        return 3;
    }
    5
}

// The answer bytes that are lent.
fn row_lent(end: usize) -> usize
    ensures { result ≤ 5 }
{
    if end % 2 == 1 {
        return 2;
    }
    5
}

// The end of case c of a call: what comes behind the tables.
fn end_of(call: usize, c: usize) -> usize {
    if call == INSERT {
        return c / 2400 % 4;
    }
    if call == READ {
        return c / 480 % 2;
    }
    0
}

// The next identity: for an insert also one identity left.
fn next(call: usize, end: usize) -> u32 {
    if call == INSERT {
        return id(end % 2 == 1, 4294967294, 11);
    }
    11
}

// The call.
fn called(
    call: usize,
    p: &[u16],
    x: &[u16],
    table: &mut [u16],
    marks: &mut [u8],
    used: usize,
    ids: &mut [u32],
    next: u32,
    row: &mut [u8],
) -> Answer {
    if call == CHECK {
        return sloefertand_v2_check_document(table, marks, used, ids, next);
    }
    if call == READ {
        return sloefertand_v2_read(p, table, marks, used, ids, next, row);
    }
    if call == DELETE {
        return sloefertand_v2_delete(p, table, marks, used, ids, next);
    }
    if call == INSERT {
        return sloefertand_v2_insert(p, x, table, marks, used, ids, next);
    }
    sloefertand_compact(table, marks, used, ids, next)
}

// The values of an answer, or the refusal.
pub(crate) fn answered(d: u64, a: Answer) -> u64 {
    if a.refusal != 0 {
        return refusal(d, a);
    }
    halves(taken(taken(d, a.first), a.second), a.third)
}

// One call more, by its answer and all rows after it.
fn counted(t: Tally, a: Answer, table: &[u16], marks: &[u8], ids: &[u32], row: &[u8]) -> Tally {
    let refused = a.refusal != 0;
    let told = answered(t.digest, a);
    Tally {
        answered: one_more(t.answered, true),
        back: one_more(t.back, refused),
        digest: bytes(rows(told, table, marks, ids), row),
    }
}

// The call on a document.
fn tried(
    call: usize,
    c: usize,
    p: &[u16],
    x: &[u16],
    table: &mut [u16],
    marks: &mut [u8],
    ids: &mut [u32],
    row: &mut [u8],
    t: Tally,
) -> Tally {
    let n = next(call, end_of(call, c));
    let a = called(call, p, x, table, marks, used(c % 5), ids, n, row);
    counted(t, a, table, marks, ids, row)
}

// The end of an insert, as far as it shortens the identities.
fn shortened(call: usize, c: usize) -> usize {
    if call == INSERT {
        return end_of(call, c);
    }
    0
}

// Case c of a call, with damage k of the identities.
fn case(call: usize, k: usize, c: usize, t: Tally) -> Tally {
    let mut table = damaged_words(c / 5 % 4);
    let mut marks = marking(c / 20 % 4);
    let mut ids = identities(k);
    let p = pattern(c / 80 % 6);
    let x = inserted(c / 480 % 5);
    let words = words_lent(c % 5);
    let some = marks_lent(c % 5);
    let last = ids_lent(k, shortened(call, c));
    let mut row = [7u8; 5];
    let lent = row_lent(end_of(call, c));
    tried(
        call,
        c,
        front(&p, pattern_words(c / 80 % 6)),
        front(&x, inserted_words(c / 480 % 5)),
        &mut table[0..words],
        &mut marks[0..some],
        &mut ids[0..last],
        &mut row[0..lent],
        t,
    )
}

// Every case.
fn cases(call: usize, k: usize, count: usize) -> Tally {
    let mut t = nothing();
    for c in 0..count {
        t = case(call, k, c, t);
    }
    t
}

// The lines of a call.
fn lines_of(stdout: Stdout, name: &[u8], call: usize, count: usize) -> io::Result<()> {
    line(stdout, name, 0, cases(call, 0, count))?;
    line(stdout, name, 1, cases(call, 1, count))?;
    line(stdout, name, 2, cases(call, 2, count))?;
    line(stdout, name, 3, cases(call, 3, count))?;
    line(stdout, name, 4, cases(call, 4, count))?;
    line(stdout, name, 5, cases(call, 5, count))
}

pub(crate) fn lines(stdout: Stdout) -> io::Result<()> {
    lines_of(stdout, b"id-check ", CHECK, 80)?;
    lines_of(stdout, b"id-read ", READ, 960)?;
    lines_of(stdout, b"id-delete ", DELETE, 480)?;
    lines_of(stdout, b"id-insert ", INSERT, 9600)?;
    lines_of(stdout, b"id-compact ", COMPACT, 80)
}
