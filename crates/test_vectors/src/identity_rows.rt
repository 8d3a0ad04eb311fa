// The row of identities and the next one, as lines of a script fill them.
ghost use Rattle.std.specs.Prelude.{◌≡◌, length};

// How far a line is read: the identities written, and the number at hand.
#[derive(Drop)]
struct Reading {
    count: usize,
    value: u64,
}

// An identity behind those written, if there is room; how many are written then.
fn put(i: &mut [u32], n: usize, value: u64) -> usize {
    if i.len() <= n {
        return n;
    }
    i[n] = (value % 4294967296) as u32;
    n + 1
}

// One digit more, of a number of 32 bits.
fn with_digit(value: u64, byte: u8) -> u64 {
    value % 4294967296 * 10 + byte as u64 % 48
}

// One byte more: a digit, or a space behind a number.
fn taken(s: Reading, byte: u8, i: &mut [u32]) -> Reading {
    if byte == b' ' {
        return Reading {
            count: put(i, s.count, s.value),
            value: 0,
        };
    }
    Reading {
        count: s.count,
        value: with_digit(s.value, byte),
    }
}

// The numbers behind a line's first two bytes, at the front of a row; how many.
pub(crate) fn numbers(line: &[u8], i: &mut [u32]) -> usize {
    if line.len() < 3 {
        return 0;
    }
    let mut s = Reading { count: 0, value: 0 };
    for k in 2..line.len() {
        s = taken(s, line[k], i);
    }
    put(i, s.count, s.value)
}

// The one number of a line.
pub(crate) fn number(line: &[u8]) -> u32 {
    let mut i = [0u32; 1];
    numbers(line, &mut i);
    i[0]
}

// 0, 1, 2 and so on, so many of them as there is room for; how many.
pub(crate) fn counted(i: &mut [u32], n: usize) -> usize {
    let mut end = 0;
    for k in 0..n {
        end = put(i, end, k as u64);
    }
    end
}
