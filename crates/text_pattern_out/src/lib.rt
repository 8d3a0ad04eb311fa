// Patterns as text: from a pattern's words to its text, with a list of names.
#![tactic(auto)]

mod check;
mod list;
mod put;
mod room;

ghost use Rattle.text_pattern_out.specs.Writing.{WriteText};

use crate::check::write_checked;
use crate::put::put_steps;
use tables::refusal::Refusal;

// From a pattern's words to its text: each number as the name that has it in the list, 0 as a star.
pub fn write_pattern(list: &[u8], p: &[u16], out: &mut [u8]) -> Result<usize, Refusal>
    ensures { WriteText list.now p.now out.old out.new result }
{
    write_checked(list, p, out.len())?;
    Ok(put_steps(list, p, out))
}
