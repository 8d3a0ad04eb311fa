// The bytes of names. The table has XML's rule, by which a colon may start a name; that a step's name has no colon is tested here, beside the table,
// in the two functions that answer for a byte.
ghost use Rattle.std.specs.Prelude.{◌≡◌, get_or};
ghost use Rattle.text_names.specs.Letters.{class_of, starts, goes};

use crate::classes::class;
use tables::words::byte;

// A colon.
const COLON: usize = 58;

// The class of the byte at i; 0 outside.
fn class_at(s: &[u8], i: usize) -> u8
    ensures { result ≡ class_of (get_or s.now i 0) }
{
    if i < s.len() {
        return class(s[i]);
    }
    0
}

// The byte at i may start a name; none does outside.
pub fn starts_at(s: &[u8], i: usize) -> bool
    ensures { result ≡ starts (get_or s.now i 0) }
{
    if byte(s, i) == COLON {
        return false;
    }
    class_at(s, i) == 2
}

// The byte at i may continue a name; none does outside.
pub fn goes_at(s: &[u8], i: usize) -> bool
    ensures { result ≡ goes (get_or s.now i 0) }
{
    if byte(s, i) == COLON {
        return false;
    }
    class_at(s, i) != 0
}
