// The steps of a right text, one after another.
ghost use Rattle.std.specs.Prelude.{◌+◌, ◌*◌, ◌≤◌, ◌<◌, true, ◌≡◌, length, set};
ghost use Rattle.tables.specs.Limits.{name_limit};
ghost use Rattle.text_names.specs.Names.{lines, same};
ghost use Rattle.text_pattern.specs.Texts.{star};
ghost use Rattle.text_pattern.specs.Scan.{right_text};
ghost use Rattle.text_pattern.specs.Meaning.{steps_of};
ghost use Rattle.text_pattern_in.specs.Walk.{word_from, word_to, word_at, axis_at, found_of, Taken};

use tables::limits::WORD_LIMIT;
use tables::refusal::{Reason, Refusal, refused};
use tables::words::byte;
use text_names::names::number;
use text_parts::next_byte;

// Where the word of the step begins whose slash stands at i.
fn word_from(s: &[u8], i: usize) -> usize
    requires { i < length s.now }
    ensures { result ≡ word_from s.now i }
{
    if byte(s, i + 1) == 47 {
        return i + 2;
    }
    i + 1
}

// Where it ends: at the next slash, or at the end of the text.
fn word_to(s: &[u8], i: usize) -> usize
    requires { i < length s.now }
    ensures { result ≡ word_to s.now i }
{
    next_byte(s, word_from(s, i), 47)
}

// How many steps a right text has.
pub(crate) fn count_steps(s: &[u8]) -> usize
    requires { right_text s.now ≡ true }
    ensures { result ≡ length (steps_of s.now) }
{
    let n = s.len();
    let mut i = 0;
    let mut k = 0;
    while i < n {
        i = word_to(s, i);
        k += 1;
    }
    k
}

// The axis of step k, whose slash stands at i.
fn axis_at(s: &[u8], i: usize, k: usize) -> u16
    requires { i < length s.now }
    ensures { result ≡ axis_at s.now i k }
{
    if byte(s, i + 1) == 47 {
        return 2;
    }
    if k == 0 {
        return 0;
    }
    1
}

// A word is a star.
fn is_star(w: &[u8]) -> bool
    ensures { result ≡ same w.now star }
{
    w.len() == 1 && byte(w, 0) == 42
}

// The label of a word: 0 for a star, a name's number, or past the last word where it is not listed.
fn found(list: &[u8], w: &[u8]) -> usize
    ensures { result ≡ found_of (lines list.now) w.now }
{
    if is_star(w) {
        return 0;
    }
    let n = number(list, w);
    if n == 0 {
        return WORD_LIMIT;
    }
    n
}

// The label of the step whose slash stands at i.
fn label_at(list: &[u8], s: &[u8], i: usize) -> usize
    requires { i < length s.now }
    ensures { result ≡ found_of (lines list.now) (word_at s.now i) }
{
    let from = word_from(s, i);
    let to = word_to(s, i);
    found(list, &s[from..to])
}

// Step k of a pattern: its axis and its label.
fn put_step(words: &mut [u16], k: usize, axis: u16, label: usize)
    requires { (2 * k + 1 < length words.old) × (label ≤ name_limit) }
    ensures { words.new ≡ set (set words.old (2 * k) axis) (2 * k + 1) label }
{
    words[2 * k] = axis;
    words[2 * k + 1] = label as u16;
}

// The steps of a right text into a table that has room for them; 15 for the first whose name is not listed.
pub(crate) fn take_steps(list: &[u8], s: &[u8], words: &mut [u16]) -> Result<(), Refusal>
    requires list_len_bound { length (lines list.now) ≤ name_limit }
    requires s_value { right_text s.now ≡ true }
    requires s_in_bounds { 2 * length (steps_of s.now) ≤ length words.old }
    ensures { Taken list.now s.now words.old words.new result }
{
    let n = s.len();
    let mut i = 0;
    let mut k = 0;
    while i < n {
        let label = label_at(list, s, i);
        if WORD_LIMIT <= label {
            return refused(Reason::Name, 1, k);
        }
        put_step(words, k, axis_at(s, i, k), label);
        i = word_to(s, i);
        k += 1;
    }
    Ok(())
}
