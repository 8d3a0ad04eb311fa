// The room that a text takes. Its length may pass every number, so it is never added up: step by step, what is left of the room is asked.
ghost use Rattle.std.specs.Prelude.{◌≤◌, ◌≡◌, length};
ghost use Rattle.text_names.specs.Names.{lines};
ghost use Rattle.text_pattern.specs.Texts.{slashes};
ghost use Rattle.text_pattern.specs.Meaning.{word_of};
ghost use Rattle.text_pattern_out.specs.Steps.{Numbered};
ghost use Rattle.text_pattern_out.specs.Rest.{room_check};

use crate::list::{name_from, name_length};
use tables::refusal::{Reason, Refusal, refused};
use tables::words::{first_word, second_word};

// How many slashes stand before a step.
fn slash_count(a: usize) -> usize
    ensures { result ≡ length (slashes a) }
{
    if a == 2 {
        return 2;
    }
    1
}

// How many bytes a label takes.
fn word_length(list: &[u8], label: usize) -> usize
    requires { label ≤ length (lines list.now) }
    ensures { result ≡ length (word_of (lines list.now) label) }
{
    if label == 0 {
        return 1;
    }
    name_length(list, name_from(list, label - 1))
}

// The room for a pattern's text: refusal 7 where it is too little.
pub(crate) fn room_checked(list: &[u8], p: &[u16], room: usize) -> Result<(), Refusal>
    requires { Numbered (lines list.now) p.now }
    ensures { result ≡ room_check list.now p.now room }
{
    let n = p.len() / 2;
    let mut left = room;
    for i in 0..n {
        let s = slash_count(first_word(p, i));
        let w = word_length(list, second_word(p, i));
        if left < s {
            return refused(Reason::Output, 4, 0);
        }
        if left - s < w {
            return refused(Reason::Output, 4, 0);
        }
        left = left - s - w;
    }
    Ok(())
}
