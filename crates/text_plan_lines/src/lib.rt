// Printed lines, words and a line feed each: a refusal's line of four words, or a line of three a frame.
#![tactic(auto)]

ghost use Rattle.std.specs.Prelude.{◌+◌, ◌*◌, ◌%◌, ◌≤◌, ◌≡◌, [], ◌∷◌, ◌++◌, length, drop};
ghost use Rattle.tables.specs.Limits.{word_limit};
ghost use Rattle.text_plan_lines.specs.Printing.{printed_line, refusal_text, plan_text, Answered};

use check_size::output;
use tables::limits::WORD_LIMIT;
use tables::refusal::Refusal;
use tables::words::word;
use text_line_out::write_line;

// The last four digits of a number, as a word.
fn low(n: usize) -> u16
    ensures { result ≡ n % word_limit }
{
    (n % WORD_LIMIT) as u16
}

// Words as a line, with its line feed, at the front.
fn write_words(words: &[u16], out: &mut [u8])
    requires { 4 * length words.now + 1 ≤ length out.old }
    ensures { out.new ≡ printed_line words.now ++ drop (4 * length words.now + 1) out.old }
{
    let end = write_line(words, out).unwrap();
    out[end] = 10;
}

// Three numbers.
fn write_three(a: usize, b: usize, c: usize, out: &mut [u8])
    requires { 13 ≤ length out.old }
    ensures { out.new ≡ printed_line (a ∷ b ∷ c ∷ []) ++ drop 13 out.old }
{
    let words = [low(a), low(b), low(c)];
    write_words(&words, out);
}

// Four numbers.
fn write_four(a: usize, b: usize, c: usize, d: usize, out: &mut [u8])
    requires { 17 ≤ length out.old }
    ensures { out.new ≡ printed_line (a ∷ b ∷ c ∷ d ∷ []) ++ drop 17 out.old }
{
    let words = [low(a), low(b), low(c), low(d)];
    write_words(&words, out);
}

// A line a frame, at the front.
fn write_frames(kinds: &[u16], plan: &[u16], out: &mut [u8])
    requires { 13 * length kinds.now ≤ length out.old }
    ensures { out.new ≡ plan_text kinds.now plan.now (length kinds.now) ++ drop (13 * length kinds.now) out.old }
{
    let n = kinds.len();
    for k in 0..n {
        write_three(word(kinds, k), k + 1, word(plan, k), &mut out[13 * k..]);
    }
}

// FFFF, the line number, the refusal number and the offset in that line.
pub fn print_refusal(
    line: usize,
    number: usize,
    offset: usize,
    out: &mut [u8],
) -> Result<usize, Refusal>
    ensures { Answered (refusal_text line number offset) out.old out.new result }
{
    output(17, out.len())?;
    write_four(65535, line, number, offset, out);
    Ok(17)
}

// A line a frame: its kind, its number from 1, its plan word.
pub fn print_frames(kinds: &[u16], plan: &[u16], out: &mut [u8]) -> Result<usize, Refusal>
    ensures { Answered (plan_text kinds.now plan.now (length kinds.now)) out.old out.new result }
{
    let n = kinds.len();
    output(n, out.len() / 13)?;
    write_frames(kinds, plan, out);
    Ok(13 * n)
}
