// Writing: each text at the front of the buffer that is lent, the next into the rest of it.
ghost use Rattle.std.specs.Prelude.{◌+◌, ◌≤◌, ◌≡◌, ◌++◌, length, take, drop};
ghost use Rattle.text_names.specs.Names.{lines};
ghost use Rattle.text_pattern.specs.Texts.{slashes};
ghost use Rattle.text_pattern.specs.Meaning.{word_of, text_of};
ghost use Rattle.text_pattern_out.specs.Steps.{step_text, Numbered, Put};

use crate::list::{name_from, name_length};
use tables::words::{first_word, second_word};

// The slashes before a step.
fn put_slashes(a: usize, out: &mut [u8]) -> usize
    requires { length (slashes a) ≤ length out.old }
    ensures { Put (slashes a) out.old out.new result }
{
    out[0] = 47;
    if a != 2 {
        return 1;
    }
    out[1] = 47;
    2
}

// n bytes of the list.
fn put_name(list: &[u8], from: usize, n: usize, out: &mut [u8])
    requires n_in_bounds { from + n ≤ length list.now }
    requires n_in_bounds_2 { n ≤ length out.old }
    ensures { out.new ≡ take n (drop from list.now) ++ drop n out.old }
{
    for k in 0..n {
        out[k] = list[from + k];
    }
}

// A star for label 0, else the name that has the number.
fn put_word(list: &[u8], label: usize, out: &mut [u8]) -> usize
    requires label_in_bounds { label ≤ length (lines list.now) }
    requires label_in_bounds_2 { length (word_of (lines list.now) label) ≤ length out.old }
    ensures { Put (word_of (lines list.now) label) out.old out.new result }
{
    if label == 0 {
        out[0] = 42;
        return 1;
    }
    let from = name_from(list, label - 1);
    let n = name_length(list, from);
    put_name(list, from, n, out);
    n
}

// The slashes, then the word behind them.
fn put_step(list: &[u8], a: usize, label: usize, out: &mut [u8]) -> usize
    requires label_in_bounds { label ≤ length (lines list.now) }
    requires label_in_bounds_2 { length (step_text (lines list.now) a label) ≤ length out.old }
    ensures { Put (step_text (lines list.now) a label) out.old out.new result }
{
    let s = put_slashes(a, out);
    let w = put_word(list, label, &mut out[s..]);
    s + w
}

// The steps, one behind the other.
pub(crate) fn put_steps(list: &[u8], p: &[u16], out: &mut [u8]) -> usize
    requires numbered { Numbered (lines list.now) p.now }
    requires p_in_bounds { length (text_of (lines list.now) p.now) ≤ length out.old }
    ensures { Put (text_of (lines list.now) p.now) out.old out.new result }
{
    let n = p.len() / 2;
    let mut at = 0;
    for i in 0..n {
        at += put_step(list, first_word(p, i), second_word(p, i), &mut out[at..]);
    }
    at
}
