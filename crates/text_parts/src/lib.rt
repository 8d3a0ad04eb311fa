// Parts of a text: where the next byte of one kind stands.
#![tactic(auto)]

ghost use Rattle.std.specs.Prelude.{◌≡◌};
ghost use Rattle.text_parts.specs.Next.{next};

use tables::words::byte;

// The first byte c at or behind a place, or the end of the text.
pub fn next_byte(s: &[u8], at: usize, c: usize) -> usize
    ensures { result ≡ next c s.now at }
{
    let n = s.len();
    let mut k = at;
    while k < n {
        if byte(s, k) == c {
            return k;
        }
        k += 1;
    }
    k
}
