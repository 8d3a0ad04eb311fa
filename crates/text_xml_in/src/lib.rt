// Trees from tags: from a text to its tree's words.
#![tactic(auto)]

mod levels;
mod rows;
mod scan;
mod stage;

ghost use Rattle.std.specs.Prelude.{◌≡◌, true};
ghost use Rattle.text_xml_form.specs.Scan.{right_tags};
ghost use Rattle.text_xml_in.specs.Reading.{ReadTree};
ghost use Rattle.text_xml_in.specs.Rest.{nodes_check, RowsRead};

use crate::rows::{fill, slashes};
use crate::scan::tags_checked;
use check_size::output;
use tables::limits::TREE_LIMIT;
use tables::refusal::{Reason, Refusal, refused};

// So many nodes, then room for their words.
fn nodes_checked(k: usize, room: usize) -> Result<(), Refusal>
    ensures { result ≡ nodes_check k room }
{
    if TREE_LIMIT < k {
        return refused(Reason::Limit, 3, 0);
    }
    output(2 * k, room)
}

// The rows of a right text, if they are few enough and there is room for them.
fn read_rows(s: &[u8], words: &mut [u16]) -> Result<usize, Refusal>
    requires { right_tags s.now ≡ true }
    ensures { RowsRead s.now words.old words.new result }
{
    let k = slashes(s);
    nodes_checked(k, words.len())?;
    fill(s, words);
    Ok(2 * k)
}

// From a tree's tags to its words.
pub fn read_tree(s: &[u8], words: &mut [u16]) -> Result<usize, Refusal>
    ensures { ReadTree s.now words.old words.new result }
{
    tags_checked(s)?;
    read_rows(s, words)
}
