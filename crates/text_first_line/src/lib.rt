// The first line of an input, which may name the mode of the plan.
#![tactic(auto)]

ghost use Rattle.std.specs.Prelude.{◌/◌, ◌≡◌, length};
ghost use Rattle.tables.specs.Limits.{digit_limit};
ghost use Rattle.text_first_line.specs.Answer.{FirstIs};
ghost use Rattle.text_first_line.specs.Looking.{two_words, Says, Behind};

use batch_mode::Mode;
use tables::limits::DIGIT_LIMIT;
use tables::refusal::{Reason, Refusal, refused};
use tables::words::word;
use text_line_in::read_line;
use text_parts::next_byte;

// The words of a mode line are two: its kind, and the mode.
#[tactic(auto, unfolding(crate::specs::Looking::two_words))]
fn two_words(ws: &[u16]) -> Result<(), Refusal>
    ensures { result ≡ two_words ws.now }
{
    if ws.len() <= 1 {
        return refused(Reason::Ends, 6, 1);
    }
    if 2 < ws.len() {
        return refused(Reason::Ends, 6, 2);
    }
    Ok(())
}

// What the words of a first line say, where the lines behind it begin at a place.
#[tactic(auto, unfolding(crate::specs::FirstLine::mode_line_check, crate::specs::Looking::two_words))]
fn says(ws: &[u16], at: usize) -> Result<Option<(Mode, usize)>, Refusal>
    ensures { Says ws.now at result }
{
    if word(ws, 0) != 4 {
        return Ok(None);
    }
    two_words(ws)?;
    let mode = Mode::try_from(word(ws, 1))?;
    Ok(Some((mode, at)))
}

// Where the lines behind a line begin that ends here: behind its line feed, or at the end of the input.
fn behind(s: &[u8], end: usize) -> usize
    ensures { Behind s.now end result }
{
    if end < s.len() {
        return end + 1;
    }
    s.len()
}

// Words of a line.
const WORDS: usize = DIGIT_LIMIT / 4;

// Room for them.
fn room() -> [u16; WORDS]
    ensures { length result ≡ digit_limit / 4 }
{
    [0; WORDS]
}

// The first line; one that is not well-formed is left to those of frames.
pub fn first_line(s: &[u8]) -> Result<Option<(Mode, usize)>, Refusal>
    ensures { FirstIs s.now result }
{
    let end = next_byte(s, 0, 10);
    let at = behind(s, end);
    let mut words = room();
    let Ok(n) = read_line(&s[0..end], 1, &mut words) else {
        return Ok(None);
    };
    says(&words[0..n], at)
}
