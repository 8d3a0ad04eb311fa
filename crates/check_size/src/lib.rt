// How long a table or an output may be: refusals 1, 2 and 7.
#![tactic(auto)]

ghost use Rattle.std.specs.Prelude.{◌≡◌};
ghost use Rattle.tables.specs.Checks.{size_check, output_check};

use tables::refusal::{Reason, Refusal, refused};

// Whether n words are a table of whole pairs, at least one and at most the limit.
pub fn sized(n: usize, limit: usize, table: usize) -> Result<(), Refusal>
    ensures { result ≡ size_check n limit table }
{
    if n == 0 {
        return refused(Reason::Words, table, 0);
    }
    if n % 2 != 0 {
        return refused(Reason::Words, table, 0);
    }
    if limit < n / 2 {
        return refused(Reason::Limit, table, 0);
    }
    Ok(())
}

// An output of `have` words or bytes where `wanted` are to be written: refusal 7 where it is too short.
pub fn output(wanted: usize, have: usize) -> Result<(), Refusal>
    ensures { result ≡ output_check wanted have }
{
    if have < wanted {
        return refused(Reason::Output, 4, 0);
    }
    Ok(())
}
