// The masks of a pattern, a word of 64 steps at a time, from the step `from` on.
#![tactic(auto)]

ghost use Rattle.std.specs.Prelude.{◌-◌, ◌<◌, min, ◌≡◌, false, ◌&&◌, ◌||◌, eqb, get_or};
ghost use Rattle.tables.specs.Limits.{word_limit};
ghost use Rattle.selection.specs.Ways.{stays};
ghost use Rattle.pattern_set.specs.Sets.{bit, word_steps, Word};
ghost use Rattle.pattern_masks.specs.Masks.{byte_of, wild, has_byte, shared, Added, Noted};

use pattern_set::{WORD_STEPS, common, with};
use pattern_step::stays;
use tables::words::second_word;

// Values of a byte: the slots of a table.
pub const SLOTS: usize = 256;

// The steps of the word from `from` on that are there, of a pattern of n steps.
pub fn held(n: usize, from: usize) -> usize
    ensures { result ≡ min word_steps (n - from) }
{
    if n <= from {
        return 0;
    }
    if WORD_STEPS <= n - from {
        return WORD_STEPS;
    }
    n - from
}

// The word with step i in it besides, where `yes` says so.
pub fn put(s: u64, i: usize, yes: bool) -> u64
    ensures { Word (λ j. bit s j || (yes && eqb j i)) 0 result }
{
    if yes {
        return with(s, i);
    }
    s
}

// The steps that stay, once landed, for every node below.
pub fn staying(p: &[u16], from: usize) -> u64
    ensures { Word (stays p.now false) from result }
{
    let m = held(p.len() / 2, from);
    let mut s: u64 = 0;
    for i in 0..m {
        s = put(s, i, stays(p, false, from + i));
    }
    s
}

// The steps that are wildcards.
pub fn wildcards(p: &[u16], from: usize) -> u64
    ensures { Word (wild p.now) from result }
{
    let m = held(p.len() / 2, from);
    let mut s: u64 = 0;
    for i in 0..m {
        s = put(s, i, second_word(p, from + i) == 0);
    }
    s
}

// What slot k has; a slot outside has nothing.
fn slot(table: &[u64], k: usize) -> u64
    ensures { result ≡ get_or table.now k 0 }
{
    if k < table.len() {
        return table[k];
    }
    0
}

// Step i is put into slot k; a slot outside takes nothing.
fn note(table: &mut [u64], k: usize, i: usize)
    ensures { Added (λ slot step. eqb k slot && eqb step i) table.old table.new }
{
    if table.len() <= k {
        return;
    }
    table[k] = with(table[k], i);
}

// A byte of a label, the high one or the low one.
fn byte_of(label: usize, high: bool) -> usize
    ensures { result ≡ byte_of high label }
{
    if high {
        return label / SLOTS;
    }
    label % SLOTS
}

// Step i is put into the slot of that byte of its label; a wildcard into none.
fn note_step(table: &mut [u64], high: bool, label: usize, i: usize)
    ensures { Added (λ j b. has_byte high label j && eqb b i) table.old table.new }
{
    if label == 0 {
        return;
    }
    note(table, byte_of(label, high), i);
}

// Each step with a name is put into the slot of that byte of its label.
pub fn noted(p: &[u16], from: usize, high: bool, table: &mut [u64])
    ensures { Noted high p.now from table.old table.new }
{
    let m = held(p.len() / 2, from);
    for i in 0..m {
        note_step(table, high, second_word(p, from + i), i);
    }
}

// The steps that are in the slots of both bytes of a label; that has 16 bits.
pub fn agreeing(low: &[u64], high: &[u64], label: u16) -> u64
    ensures { (label < word_limit) × Word (shared low.now high.now label) 0 result }
{
    let l = label as usize;
    common(slot(low, l % SLOTS), slot(high, l / SLOTS))
}
