// The check of a pattern, by document 01's order.
#![tactic(auto)]

ghost use Rattle.std.specs.Prelude.{◌≡◌};
ghost use Rattle.tables.specs.Checks.{each, axis_right, axis_check, pattern_check};

use check_size::sized;
use tables::refusal::{Reason, Refusal, refused};
use tables::words::first_word;

// Whether step i's axis is right: 0 for the first, 1 or 2 for a later one.
fn axis_right(p: &[u16], i: usize) -> bool
    ensures { result ≡ axis_right p.now i }
{
    let a = first_word(p, i);
    if i == 0 {
        return a == 0;
    }
    if a == 1 {
        return true;
    }
    a == 2
}

// The first of n steps whose axis is wrong.
fn axes(p: &[u16], table: usize, n: usize) -> Result<(), Refusal>
    ensures { result ≡ each (axis_check p.now table) 0 n }
{
    for i in 0..n {
        if !axis_right(p, i) {
            return refused(Reason::Axis, table, i);
        }
    }
    Ok(())
}

// A pattern of at most `limit` steps: refusals 1, 2, 3.
pub fn pattern(p: &[u16], limit: usize, table: usize) -> Result<(), Refusal>
    ensures { result ≡ pattern_check p.now limit table }
{
    let n = p.len();
    sized(n, limit, table)?;
    axes(p, table, n / 2)
}
