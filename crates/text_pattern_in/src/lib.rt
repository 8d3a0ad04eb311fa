// From a pattern's text to its table.
#![tactic(auto)]

mod scan;
mod steps;

ghost use Rattle.std.specs.Prelude.{◌*◌, ◌≤◌, true, ◌≡◌, ◌++◌, length, drop};
ghost use Rattle.tables.specs.Limits.{name_limit, step_limit};
ghost use Rattle.text_names.specs.Names.{lines};
ghost use Rattle.text_pattern.specs.Scan.{right_text};
ghost use Rattle.text_pattern.specs.Meaning.{steps_of};
ghost use Rattle.text_pattern_in.specs.Reading.{ReadText};
ghost use Rattle.text_pattern_in.specs.Rest.{form_check, both_check, PutAs, StepsRead};

use check_size::output;
use scan::text_checked;
use steps::{count_steps, take_steps};
use tables::limits::STEP_LIMIT;
use tables::refusal::{Reason, Refusal, refused};
use text_names::names::list_checked;

// A right text, then its number of steps.
fn form_checked(s: &[u8]) -> Result<(), Refusal>
    ensures { result ≡ form_check s.now }
{
    text_checked(s)?;
    if STEP_LIMIT < count_steps(s) {
        return refused(Reason::Limit, 1, 0);
    }
    Ok(())
}

// The list, then the text.
fn both_checked(list: &[u8], s: &[u8]) -> Result<(), Refusal>
    ensures { result ≡ both_check list.now s.now }
{
    list_checked(list)?;
    form_checked(s)
}

// Words, at the front.
fn copy_words(ws: &[u16], words: &mut [u16])
    requires { length ws.now ≤ length words.old }
    ensures { words.new ≡ ws.now ++ drop (length ws.now) words.old }
{
    let n = ws.len();
    for i in 0..n {
        words[i] = ws[i];
    }
}

// Words, at the front, where there is room for them.
fn put_words(ws: &[u16], words: &mut [u16]) -> Result<usize, Refusal>
    ensures { PutAs ws.now words.old words.new result }
{
    output(ws.len(), words.len())?;
    copy_words(ws, words);
    Ok(ws.len())
}

// The steps of a right text: looked up first, and put into the lent words only then.
fn read_steps(list: &[u8], s: &[u8], words: &mut [u16]) -> Result<usize, Refusal>
    requires list_len_bound { length (lines list.now) ≤ name_limit }
    requires s_value { right_text s.now ≡ true }
    requires s_len_bound { length (steps_of s.now) ≤ step_limit }
    ensures { StepsRead list.now s.now words.old words.new result }
{
    let mut pattern = [0u16; 2 * STEP_LIMIT];
    take_steps(list, s, &mut pattern)?;
    let n = 2 * count_steps(s);
    put_words(&pattern[0..n], words)
}

// From a pattern's text to its table, with a list of names.
pub fn read_pattern(list: &[u8], s: &[u8], words: &mut [u16]) -> Result<usize, Refusal>
    ensures { ReadText list.now s.now words.old words.new result }
{
    both_checked(list, s)?;
    read_steps(list, s, words)
}
