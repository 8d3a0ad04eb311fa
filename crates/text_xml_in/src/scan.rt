// Whether a text is right, byte by byte, and how long its longest start is that some right text has.
ghost use Rattle.std.specs.Prelude.{◌≡◌, ◌&&◌, eqb, length};
ghost use Rattle.text_xml_in.specs.Reading.{tags_check};
ghost use Rattle.text_xml_in.specs.Levels.{held_levels};

use crate::levels::{HELD_LEVELS, hold, innermost};
use crate::stage::{depth_on, fits, number_on, stage_on};
use tables::refusal::{Reason, Refusal, refused};
use tables::words::byte;

// A right text may end here: behind a tag, and no element is open.
fn ends(q: usize, d: usize) -> bool
    ensures { result ≡ (eqb q 6 && eqb d 0) }
{
    q == 6 && d == 0
}

// A right text, or 14 with the length of its longest start that some right text has; the labels of open elements are held in a row.
fn scan(s: &[u8], row: &mut [u16]) -> Result<(), Refusal>
    requires { length row.old ≡ held_levels }
    ensures { result ≡ tags_check s.now }
{
    let n = s.len();
    let mut q = 0;
    let mut v = 0;
    let mut d = 0;
    let mut low = 0;
    for i in 0..n {
        let c = byte(s, i);
        if !fits(q, v, innermost(row, d), d, c) {
            return refused(Reason::Form, 7, i);
        }
        low = hold(s, i, q, v, c, d, low, row);
        d = depth_on(s, q, c, d);
        v = number_on(v, c);
        q = stage_on(q, c);
    }
    if ends(q, d) {
        return Ok(());
    }
    refused(Reason::Form, 7, n)
}

// A right text, or 14 with the length of its longest start that some right text has.
pub(crate) fn tags_checked(s: &[u8]) -> Result<(), Refusal>
    ensures { result ≡ tags_check s.now }
{
    let mut row = [0u16; HELD_LEVELS];
    scan(s, &mut row)
}
