// Whether a text is right, byte by byte, and how long its longest start is that some right text has.
ghost use Rattle.std.specs.Prelude.{◌≡◌, get_or};
ghost use Rattle.text_pattern.specs.Scan.{kind_of, next_of, ends as endsOf};
ghost use Rattle.text_pattern.specs.Meaning.{text_check};

use tables::refusal::{Reason, Refusal, refused};
use tables::words::byte;
use text_names::letters::{goes_at, starts_at};

// What the byte at i is: 1 a slash, 2 a star, 3 one that may start a name, 4 one that may only continue it, 0 any other.
fn kind_at(s: &[u8], i: usize) -> usize
    ensures { result ≡ kind_of (get_or s.now i 0) }
{
    let c = byte(s, i);
    if c == 47 {
        return 1;
    }
    if c == 42 {
        return 2;
    }
    if starts_at(s, i) {
        return 3;
    }
    if goes_at(s, i) {
        return 4;
    }
    0
}

// Where a text stands that stood before a step: behind a star, in a name, or where no right text begins so.
fn begun(k: usize) -> usize
    ensures { result ≡ next_of 1 k }
{
    if k == 2 {
        return 2;
    }
    if k == 3 {
        return 3;
    }
    5
}

// Where a text stands that stood in a name.
fn named(k: usize) -> usize
    ensures { result ≡ next_of 3 k }
{
    if k == 1 {
        return 4;
    }
    if k == 3 {
        return 3;
    }
    if k == 4 {
        return 3; // a name goes on
    }
    5
}

// Where a text stands that stood behind a slash that a second may follow.
fn slashed(k: usize) -> usize
    ensures { result ≡ next_of 4 k }
{
    if k == 1 {
        return 1; // the second slash of two
    }
    begun(k)
}

// Where a text stands behind a byte of this kind: 0 before its first slash, 1 before a step, 2 behind a star, 3 in a name, 4 behind a slash that a
// second may follow, 5 where no right text begins so.
fn next(q: usize, k: usize) -> usize
    ensures { result ≡ next_of q k }
{
    if q == 1 {
        return begun(k);
    }
    if q == 3 {
        return named(k);
    }
    if q == 4 {
        return slashed(k);
    }
    if k != 1 {
        return 5;
    }
    if q == 0 {
        return 1; // the first slash
    }
    if q == 2 {
        return 4;
    }
    5
}

// A right text may end here.
fn ends(q: usize) -> bool
    ensures { result ≡ endsOf q }
{
    q == 2 || q == 3
}

// A right text, or 14 with the length of its longest start that some right text has.
pub(crate) fn text_checked(s: &[u8]) -> Result<(), Refusal>
    ensures { result ≡ text_check s.now }
{
    let n = s.len();
    let mut q = 0;
    for i in 0..n {
        q = next(q, kind_at(s, i));
        if 4 < q {
            return refused(Reason::Form, 7, i);
        }
    }
    if ends(q) {
        return Ok(());
    }
    refused(Reason::Form, 7, n)
}
