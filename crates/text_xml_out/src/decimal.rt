// Numbers in decimal.
ghost use Rattle.std.specs.Prelude.{◌+◌, ◌<◌, ◌≤◌, ◌≡◌, length};
ghost use Rattle.text_xml.specs.Decimal.{decimal};
ghost use Rattle.text_xml_out.specs.Places.{Wrote};

// The byte of a digit.
fn digit_byte(d: usize) -> u8
    requires { d < 10 }
    ensures { result ≡ 48 + d }
{
    (48 + d) as u8
}

// How many digits a number has: of a label at most five, and no call of itself.
pub(crate) fn digits(n: usize) -> usize
    ensures { result ≡ length (decimal n) }
{
    if n < 10 {
        return 1;
    }
    if n < 100 {
        return 2;
    }
    if n < 1000 {
        return 3;
    }
    if n < 10000 {
        return 4;
    }
    if n < 100000 {
        return 5;
    }
    digits(n / 100000) + 5
}

// The digits of a number, from the last to the first; the place behind them.
pub(crate) fn put_decimal(n: usize, out: &mut [u8], at: usize) -> usize
    requires { at + length (decimal n) ≤ length out.old }
    ensures { Wrote (decimal n) out.old at out.new result }
{
    let end = at + digits(n);
    let mut k = end;
    let mut left = n;
    while 10 <= left {
        k -= 1;
        out[k] = digit_byte(left % 10);
        left = left / 10;
    }
    out[at] = digit_byte(left);
    end
}
