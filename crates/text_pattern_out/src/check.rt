// What is asked before a pattern is written: 14 for the list, 1, 2, 3, 15, 7.
ghost use Rattle.std.specs.Prelude.{◌≡◌};
ghost use Rattle.tables.specs.Limits.{step_limit};
ghost use Rattle.tables.specs.Checks.{◌then◌, pattern_check};
ghost use Rattle.text_pattern_out.specs.Writing.{write_text_check};
ghost use Rattle.text_pattern_out.specs.Rest.{numbers_check, rest_check};

use crate::list::names;
use crate::room::room_checked;
use check_pattern::pattern;
use tables::limits::STEP_LIMIT;
use tables::refusal::{Reason, Refusal, refused};
use tables::words::second_word;
use text_names::names::list_checked;

// The first step whose number has no name.
fn numbers(list: &[u8], p: &[u16]) -> Result<(), Refusal>
    ensures { result ≡ numbers_check list.now p.now }
{
    let most = names(list);
    let n = p.len() / 2;
    for i in 0..n {
        if most < second_word(p, i) {
            return refused(Reason::Name, 1, i);
        }
    }
    Ok(())
}

// The numbers, then the room.
fn numbers_and_room(list: &[u8], p: &[u16], room: usize) -> Result<(), Refusal>
    ensures { result ≡ rest_check list.now p.now room }
{
    numbers(list, p)?;
    room_checked(list, p, room)
}

// The pattern, then its numbers and the room.
fn pattern_and_rest(list: &[u8], p: &[u16], room: usize) -> Result<(), Refusal>
    ensures { result ≡ (pattern_check p.now step_limit 1 then rest_check list.now p.now room) }
{
    pattern(p, STEP_LIMIT, 1)?;
    numbers_and_room(list, p, room)
}

// The list, then the pattern and the room.
pub(crate) fn write_checked(list: &[u8], p: &[u16], room: usize) -> Result<(), Refusal>
    ensures { result ≡ write_text_check list.now p.now room }
{
    list_checked(list)?;
    pattern_and_rest(list, p, room)
}
