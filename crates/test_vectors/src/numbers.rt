// The numbers of a line. Some may stand many times over: 7*3 is 7 7 7, 0,5*2 is 0 5 0 5, and 1 2*2+2 is 1 2 2 1 2 2.
ghost use Rattle.std.specs.Prelude.{◌≡◌, length};

use tables::words::word;

// Room for the numbers of a line.
fn values_room() -> [u16; 69632]
    ensures { length result ≡ 69632 }
{
    [0; 69632]
}

// How far a line is read: the numbers written, where the last few that stand together begin, the number at hand, and whether it says how many times.
#[derive(Clone, Copy)]
struct Reading {
    count: usize,
    from: usize,
    value: usize,
    times: bool,
}

// A number behind those written, if there is room; how many are written then.
fn put(t: &mut [u16], n: usize, value: usize) -> usize {
    if t.len() <= n {
        return n;
    }
    t[n] = (value % 65536) as u16;
    n + 1
}

// So many places before this one.
fn before(k: usize, size: usize) -> usize {
    if k < size {
        return 0;
    }
    k - size
}

// One number more, as it stands so many places before.
fn again(t: &mut [u16], k: usize, size: usize) -> usize {
    let value = word(t, before(k, size));
    put(t, k, value)
}

// So many numbers more, as they stand before; how many are written then.
fn copied(t: &mut [u16], n: usize, size: usize) -> usize {
    let mut k = n;
    for i in 0..size {
        k = again(t, k, size);
    }
    k
}

// The numbers behind `from`, so many times in all.
fn repeated(t: &mut [u16], from: usize, n: usize, times: usize) -> usize {
    let size = before(n, from);
    let mut k = n;
    for i in 1..times {
        k = copied(t, k, size);
    }
    k
}

// One digit more, of a number below 65,536.
fn with_digit(value: usize, byte: u8) -> usize {
    value % 65536 * 10 + byte as usize % 48
}

// The number at hand is complete.
fn ended(s: Reading, t: &mut [u16]) -> usize {
    if s.times {
        return repeated(t, s.from, s.count, s.value);
    }
    put(t, s.count, s.value)
}

// One byte more: a digit, or a comma, a star, a plus or a space behind a number.
fn taken(s: Reading, byte: u8, t: &mut [u16]) -> Reading {
    if b'0' <= byte {
        return Reading {
            count: s.count,
            from: s.from,
            value: with_digit(s.value, byte),
            times: s.times,
        };
    }
    let count = ended(s, t);
    if byte == b' ' {
        return Reading {
            count,
            from: count,
            value: 0,
            times: false,
        };
    }
    if byte == b'+' {
        return Reading {
            count,
            from: 0,
            value: 0,
            times: true,
        };
    }
    Reading {
        count,
        from: s.from,
        value: 0,
        times: byte == b'*',
    }
}

// The numbers behind a line's first two bytes, at the front of a table; how many.
pub(crate) fn words(line: &[u8], t: &mut [u16]) -> usize {
    if line.len() < 3 {
        return 0;
    }
    let mut s = Reading {
        count: 0,
        from: 0,
        value: 0,
        times: false,
    };
    for i in 2..line.len() {
        s = taken(s, line[i], t);
    }
    ended(s, t)
}

// A byte behind those written, if there is room; how many are written then.
pub(crate) fn put_byte(m: &mut [u8], n: usize, byte: u8) -> usize {
    if m.len() <= n {
        return n;
    }
    m[n] = byte;
    n + 1
}

// A word as a byte.
fn narrow(t: &[u16], i: usize) -> u8 {
    (word(t, i) % 256) as u8
}

// The first so many words of a table, at the front of a row; how many.
fn narrowed(t: &[u16], n: usize, m: &mut [u8]) -> usize {
    let mut k = 0;
    for i in 0..n {
        k = put_byte(m, k, narrow(t, i));
    }
    k
}

// The same numbers at the front of a row.
pub(crate) fn bytes(line: &[u8], m: &mut [u8]) -> usize {
    let mut t = values_room();
    let n = words(line, &mut t);
    narrowed(&t, n, m)
}

// The one number of a line.
pub(crate) fn number(line: &[u8]) -> usize {
    let mut t = [0u16; 1];
    words(line, &mut t);
    word(&t, 0)
}
