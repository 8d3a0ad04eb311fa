// The plain reading: slow, and as near to document 01's words as code can be.
#![tactic(auto)]

ghost use Rattle.std.specs.Prelude.{◌≡◌, cond, ◌++◌, drop};
ghost use Rattle.tables.specs.Words.{nodes, tag};
ghost use Rattle.selection.specs.Lists.{tab};
ghost use Rattle.selection.specs.Ways.{takes, last};
ghost use Rattle.doc_plain.specs.Plain.{PlainRead};
ghost use Rattle.doc_plain.specs.Landing.{Asked, Readable, lands_on, reaches_to};

use check_plain::checked;
use tables::refusal::Refusal;
use tables::words::{first_word, second_word};

// Whether the labels of step i and node v agree: a wildcard with any.
fn agrees(p: &[u16], t: &[u16], i: usize, v: usize) -> bool
    ensures { result ≡ takes p.now i (tag t.now v) }
{
    let asked = second_word(p, i);
    let found = second_word(t, v);
    if asked == 0 {
        return true;
    }
    asked == found
}

// Whether step i lands on node v: the step before it landed on the parent, or reached the parent from somewhere above.
#[cycle(lands_reaches)]
fn lands(p: &[u16], t: &[u16], i: usize, v: usize) -> bool
    requires { Asked p.now t.now i v }
    ensures { result ≡ lands_on p.now t.now i v }
{
    if !agrees(p, t, i, v) {
        return false;
    }
    if i == 0 {
        return v == 0;
    }
    if v == 0 {
        return false;
    }
    let above = first_word(t, v);
    if lands(p, t, i - 1, above) {
        return true;
    }
    if first_word(p, i) != 2 {
        return false;
    }
    reaches(p, t, i - 1, above)
}

// Whether step i landed somewhere above node v.
#[cycle(lands_reaches)]
fn reaches(p: &[u16], t: &[u16], i: usize, v: usize) -> bool
    requires { Asked p.now t.now i v }
    ensures { result ≡ reaches_to p.now t.now i v }
{
    if v == 0 {
        return false;
    }
    let above = first_word(t, v);
    if lands(p, t, i, above) {
        return true;
    }
    reaches(p, t, i, above)
}

fn bit(chosen: bool) -> u8
    ensures { result ≡ cond chosen 1 0 }
{
    if chosen {
        return 1;
    }
    0
}

// One byte a node: 1 if the last step lands on it, else 0.
fn fill(p: &[u16], t: &[u16], row: &mut [u8])
    requires { Readable p.now t.now row.old }
    ensures { row.new ≡ tab (λ v. cond (lands_on p.now t.now (last p.now) v) 1 0) (nodes t.now) ++ drop (nodes t.now) row.old }
{
    let n = t.len() / 2;
    let output = p.len() / 2 - 1;
    for v in 0..n {
        row[v] = bit(lands(p, t, output, v));
    }
}

// The plain reading of a bare tree: one byte a node, 1 if the pattern selects it, else 0; later bytes stay.
pub fn plain_reading(p: &[u16], t: &[u16], row: &mut [u8]) -> Result<(), Refusal>
    ensures { PlainRead p.now t.now row.old row.new result }
{
    checked(p, t, row.len())?;
    fill(p, t, row);
    Ok(())
}
