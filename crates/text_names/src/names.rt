// Names, and lists of them: each name ended by a line feed, its number its place from 1.
ghost use Rattle.std.specs.Prelude.{◌+◌, ◌*◌, ◌%◌, ◌≤◌, ◌<◌, ◌≡◌, length};
ghost use Rattle.text_names.specs.Letters.{name};
ghost use Rattle.text_names.specs.Names.{lines, same, number_of, list_check};
ghost use Rattle.text_names.specs.Entries.{entry_fits, slots, slot_of, FreshAt};

use crate::letters::{goes_at, starts_at};
use tables::limits::NAME_LIMIT;
use tables::refusal::{Reason, Refusal, refused};
use tables::words::byte;
use text_parts::next_byte;

// Slots for the names of a list: many more than names, so that few share one.
const SLOTS: usize = 4096;

// Two texts are the same.
fn same_bytes(a: &[u8], b: &[u8]) -> bool
    ensures { result ≡ same a.now b.now }
{
    let n = a.len();
    if n != b.len() {
        return false;
    }
    for i in 0..n {
        if byte(a, i) != byte(b, i) {
            return false;
        }
    }
    true
}

// A name without a colon.
fn is_name(s: &[u8]) -> bool
    ensures { result ≡ name s.now }
{
    if !starts_at(s, 0) {
        return false;
    }
    let n = s.len();
    for i in 1..n {
        if !goes_at(s, i) {
            return false;
        }
    }
    true
}

// The number of a name: its place, from 1, among the lines; 0 where it is none of them.
pub fn number(list: &[u8], word: &[u8]) -> usize
    ensures { result ≡ number_of (lines list.now) word.now }
{
    let n = list.len();
    let mut from = 0;
    let mut before = 0;
    while from < n {
        let to = next_byte(list, from, 10);
        if n <= to {
            return 0;
        }
        if same_bytes(&list[from..to], word) {
            return before + 1;
        }
        from = to + 1;
        before += 1;
    }
    0
}

// The slot behind one byte more.
fn mixed(h: usize, c: u8) -> usize
    requires { h < slots }
    ensures { (result ≡ (31 * h + c) % slots) × (result < slots) }
{
    (31 * h + usize::from(c)) % SLOTS
}

// The slot of a text: the same text has the same slot.
fn slot(s: &[u8]) -> usize
    ensures { (result ≡ slot_of 0 s.now) × (result < slots) }
{
    let n = s.len();
    let mut h = 0;
    for i in 0..n {
        h = mixed(h, s[i]);
    }
    h
}

// Entry k, from its first byte to the next line feed, is right: one of the first 256, ended by a line feed, a name, and none that stood before. Where
// the mark of its slot is 0, none stood before that has its slot, and so it need not be looked for.
fn entry_right(list: &[u8], from: usize, to: usize, k: usize, mark: u8) -> bool
    requires from_le_to { (from ≤ to) × (to ≤ length list.now) }
    requires fresh_at { FreshAt list.now from to mark }
    ensures { result ≡ entry_fits list.now from to k }
{
    if NAME_LIMIT <= k {
        return false;
    }
    if list.len() <= to {
        return false;
    }
    if !is_name(&list[from..to]) {
        return false;
    }
    if mark == 0 {
        return true;
    }
    number(&list[0..from], &list[from..to]) == 0
}

// The first entry at which a list breaks.
pub fn list_checked(list: &[u8]) -> Result<(), Refusal>
    ensures { result ≡ list_check list.now }
{
    let n = list.len();
    let mut marks = [0u8; SLOTS];
    let mut from = 0;
    let mut k = 0;
    while from < n {
        let to = next_byte(list, from, 10);
        let at = slot(&list[from..to]);
        if !entry_right(list, from, to, k, marks[at]) {
            return refused(Reason::Form, 8, k);
        }
        marks[at] = 1;
        from = to + 1;
        k += 1;
    }
    Ok(())
}
