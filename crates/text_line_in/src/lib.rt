// Lines: from a line's bytes to a frame's words.
#![tactic(auto)]

ghost use Rattle.std.specs.Prelude.{◌≡◌, ◌++◌, ◌+◌, ◌*◌, ◌/◌, ◌<◌, ◌≤◌, length, get_or, drop};
ghost use Rattle.tables.specs.Checks.{◌then◌, each, output_check};
ghost use Rattle.selection.specs.Lists.{tab};
ghost use Rattle.text_digits.specs.Digits.{digit_of, word_at, Digits};
ghost use Rattle.text_line_in.specs.Lines.{character_check, line_check, ReadAs};

use check_size::output;
use tables::limits::DIGIT_LIMIT;
use tables::refusal::{Reason, Refusal, refused};
use tables::words::byte;

// The value of a digit's byte, 16 for any other byte.
fn digit(c: usize) -> usize
    ensures { result ≡ digit_of c }
{
    if c < 48 {
        return 16;
    }
    if c <= 57 {
        return c - 48;
    }
    if c < 65 {
        return 16;
    }
    if c <= 70 {
        return c - 55;
    }
    16
}

// The first of a line's characters that is no digit.
fn characters(s: &[u8], line: usize) -> Result<(), Refusal>
    ensures { result ≡ each (character_check s.now line) 0 (length s.now) }
{
    let n = s.len();
    for i in 0..n {
        if 15 < digit(byte(s, i)) {
            return refused(Reason::Line, 6, line);
        }
    }
    Ok(())
}

// A line's length, then its characters.
fn line_checked(s: &[u8], line: usize) -> Result<(), Refusal>
    ensures { result ≡ line_check s.now line }
{
    let n = s.len();
    if n == 0 {
        return refused(Reason::Line, 6, line);
    }
    if n % 4 != 0 {
        return refused(Reason::Line, 6, line);
    }
    if DIGIT_LIMIT < n {
        return refused(Reason::Line, 6, line);
    }
    characters(s, line)
}

// A line, then the room for its words.
fn parse_checked(s: &[u8], line: usize, room: usize) -> Result<(), Refusal>
    ensures { result ≡ (line_check s.now line then output_check (length s.now / 4) room) }
{
    line_checked(s, line)?;
    output(s.len() / 4, room)
}

// The digit at a place of a line.
fn digit_at(s: &[u8], i: usize) -> usize
    requires digits { Digits s.now }
    requires i_in_bounds { i < length s.now }
    ensures { (result ≡ digit_of (get_or s.now i 0)) × (result ≤ 15) }
{
    digit(byte(s, i))
}

// The word of four digits.
fn joined(a: usize, b: usize, c: usize, d: usize) -> u16
    requires { (a ≤ 15) × (b ≤ 15) × (c ≤ 15) × (d ≤ 15) }
    ensures { result ≡ a * 4096 + b * 256 + c * 16 + d }
{
    (a * 4096 + b * 256 + c * 16 + d) as u16
}

// Word k of a line.
fn word_of(s: &[u8], k: usize) -> u16
    requires digits { Digits s.now }
    requires k_in_bounds { k < length s.now / 4 }
    ensures { result ≡ word_at s.now k }
{
    let a = digit_at(s, 4 * k);
    let b = digit_at(s, 4 * k + 1);
    let c = digit_at(s, 4 * k + 2);
    let d = digit_at(s, 4 * k + 3);
    joined(a, b, c, d)
}

// The words of a line, at the front.
fn fill_words(s: &[u8], words: &mut [u16])
    requires digits { Digits s.now }
    requires s_in_bounds { length s.now / 4 ≤ length words.old }
    ensures { words.new ≡ tab (word_at s.now) (length s.now / 4) ++ drop (length s.now / 4) words.old }
{
    let n = s.len() / 4;
    for k in 0..n {
        words[k] = word_of(s, k);
    }
}

// From a line's bytes to its words; the line's number is its place in a refusal.
pub fn read_line(s: &[u8], line: usize, words: &mut [u16]) -> Result<usize, Refusal>
    ensures { ReadAs s.now line words.old words.new result }
{
    parse_checked(s, line, words.len())?;
    fill_words(s, words);
    Ok(s.len() / 4)
}
