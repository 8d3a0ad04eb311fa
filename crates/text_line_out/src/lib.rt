// Written lines: from words to the bytes of their line.
#![tactic(auto)]

ghost use Rattle.std.specs.Prelude.{◌≡◌, ◌++◌, ◌-◌, ◌*◌, ◌/◌, ◌%◌, ◌^◌, ◌<◌, ◌≤◌, length, drop};
ghost use Rattle.selection.specs.Lists.{tab};
ghost use Rattle.text_digits.specs.Digits.{byte_of, byte_at};
ghost use Rattle.text_line_out.specs.Spelling.{WrittenAs};

use check_size::output;
use tables::refusal::Refusal;
use tables::words::word;

// The byte of a digit.
fn digit_byte(d: usize) -> u8
    requires { d < 16 }
    ensures { result ≡ byte_of d }
{
    if d <= 9 {
        return (d + 48) as u8;
    }
    (d + 55) as u8
}

// Digit j of a word, the most significant first.
fn digit_of(w: usize, j: usize) -> usize
    ensures { result ≡ w / 16 ^ (3 - j) % 16 }
{
    if j == 0 {
        return w / 4096 % 16;
    }
    if j == 1 {
        return w / 256 % 16;
    }
    if j == 2 {
        return w / 16 % 16;
    }
    w % 16
}

// The line of these words, at the front.
fn fill_digits(ws: &[u16], out: &mut [u8])
    requires { 4 * length ws.now ≤ length out.old }
    ensures { out.new ≡ tab (byte_at ws.now) (4 * length ws.now) ++ drop (4 * length ws.now) out.old }
{
    let n = 4 * ws.len();
    for i in 0..n {
        out[i] = digit_byte(digit_of(word(ws, i / 4), i % 4));
    }
}

// From words to the bytes of their line.
pub fn write_line(ws: &[u16], out: &mut [u8]) -> Result<usize, Refusal>
    ensures { WrittenAs ws.now out.old out.new result }
{
    let n = 4 * ws.len();
    output(n, out.len())?;
    fill_digits(ws, out);
    Ok(n)
}
