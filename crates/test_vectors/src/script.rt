// A script, line by line. Tables r, p, x, t have words, tables l, m, y bytes, table i identities; u, v and n are numbers.
ghost use Rattle.std.specs.Prelude.{◌≡◌, length};

use crate::calls::Counts;
use crate::numbers::{bytes, number, put_byte, words};
use crate::{calls, identity_rows, show};
use check::same;
use std::io;
use std::io::Stdout;

// How much of each table is in use, and the three numbers.
#[derive(Clone, Copy)]
struct Sizes {
    r: usize,
    p: usize,
    x: usize,
    t: usize,
    l: usize,
    m: usize,
    y: usize,
    i: usize,
    u: usize,
    v: usize,
    n: u32,
}

// Room for a table of words, for one of bytes, and for identities.
fn word_room() -> [u16; 16640]
    ensures { length result ≡ 16640 }
{
    [0; 16640]
}

fn byte_room() -> [u8; 69632]
    ensures { length result ≡ 69632 }
{
    [0; 69632]
}

fn identity_room() -> [u32; 16640]
    ensures { length result ≡ 16640 }
{
    [0; 16640]
}

// The words of a table that are in use.
fn front(t: &[u16], n: usize) -> &[u16] {
    if t.len() < n {
        return t;
    }
    &t[0..n]
}

// The identities that are in use.
fn front_identities(i: &[u32], n: usize) -> &[u32] {
    if i.len() < n {
        return i;
    }
    &i[0..n]
}

// Whether a line begins with this byte.
fn begins(line: &[u8], byte: u8) -> bool {
    if line.len() == 0 {
        return false;
    }
    line[0] == byte
}

// What stands behind a line's first byte.
fn rest(line: &[u8]) -> &[u8] {
    if line.len() == 0 {
        return line;
    }
    &line[1..line.len()]
}

// Fills a table of words from a line that begins with its letter; how much of it is in use then.
fn filled(line: &[u8], letter: u8, t: &mut [u16], n: usize) -> usize {
    if begins(line, letter) {
        return words(line, t);
    }
    n
}

// The same of a table of bytes.
fn filled_bytes(line: &[u8], letter: u8, m: &mut [u8], n: usize) -> usize {
    if begins(line, letter) {
        return bytes(line, m);
    }
    n
}

// The same of a number.
fn said(line: &[u8], letter: u8, n: usize) -> usize {
    if begins(line, letter) {
        return number(line);
    }
    n
}

// A byte, or another in place of a space.
fn spaced(byte: u8, space: u8) -> u8 {
    if byte == b' ' {
        return space;
    }
    byte
}

// Bytes behind those in use, another in place of each space; how many are in use then.
fn append(m: &mut [u8], n: usize, s: &[u8], space: u8) -> usize {
    let mut end = n;
    for i in 0..s.len() {
        end = put_byte(m, end, spaced(s[i], space));
    }
    end
}

// Fills table m, or puts text behind its bytes in use: a line and its line feed, or a line without it.
fn written(line: &[u8], m: &mut [u8], n: usize) -> usize {
    if begins(line, b'+') {
        let end = append(m, n, rest(line), b' ');
        return put_byte(m, end, b'\n');
    }
    if begins(line, b'-') {
        return append(m, n, rest(line), b' ');
    }
    filled_bytes(line, b'm', m, n)
}

// Fills table l, or puts names behind its bytes in use, a line feed behind each.
fn listed(line: &[u8], l: &mut [u8], n: usize) -> usize {
    if begins(line, b'>') {
        let end = append(l, n, rest(line), b'\n');
        return put_byte(l, end, b'\n');
    }
    filled_bytes(line, b'l', l, n)
}

// Fills table i: by its own line, or with 0, 1, 2 and so on where a line fills table m, one for each mark.
fn named(line: &[u8], i: &mut [u32], n: usize, marks: usize) -> usize {
    if begins(line, b'm') {
        return identity_rows::counted(i, marks);
    }
    if begins(line, b'i') {
        return identity_rows::numbers(line, i);
    }
    n
}

// The next identity: by its own line, or the number of marks where a line fills table m.
fn next(line: &[u8], n: u32, marks: usize) -> u32 {
    if begins(line, b'm') {
        return (marks % 4294967296) as u32;
    }
    if begins(line, b'n') {
        return identity_rows::number(line);
    }
    n
}

// Prints a heading as it stands, or shows a table that a call can change.
fn reveal(
    stdout: Stdout,
    line: &[u8],
    t: &[u16],
    m: &[u8],
    y: &[u8],
    i: &[u32],
    s: Sizes,
) -> io::Result<()> {
    if begins(line, b':') {
        return show::heading(stdout, rest(line));
    }
    if same(line, b"=t") {
        return show::table(stdout, b"  t", front(t, s.t));
    }
    if same(line, b"=m") {
        return show::row(stdout, b"  m", show::front(m, s.m));
    }
    if same(line, b"=y") {
        return show::row(stdout, b"  y", show::front(y, s.y));
    }
    if same(line, b"=i") {
        show::identities(stdout, b"  i", front_identities(i, s.i))?;
    }
    Ok(())
}

// A check, a plain reading, a verdict, another shop's witness or a plan.
fn ask(
    stdout: Stdout,
    name: &[u8],
    r: &[u16],
    p: &[u16],
    x: &[u16],
    t: &mut [u16],
    y: &mut [u8],
    u: usize,
    v: usize,
) -> io::Result<()> {
    calls::check(stdout, name, r, x, u, v)?;
    calls::read_plain(stdout, name, r, x, y)?;
    calls::judge(stdout, name, r, p, x, t)?;
    calls::evidence(stdout, name, r, p, x, t)?;
    calls::plan(stdout, name, x, t, u, v)
}

// A line, a pattern's or a tree's text, or a printed plan.
fn spell(
    stdout: Stdout,
    name: &[u8],
    r: &[u16],
    x: &[u16],
    t: &mut [u16],
    l: &[u8],
    m: &[u8],
    y: &mut [u8],
    u: usize,
) -> io::Result<()> {
    calls::spell(stdout, name, x, t, m, u, y)?;
    calls::pattern(stdout, name, l, r, t, m, y)?;
    calls::tree(stdout, name, x, t, m, y)?;
    calls::print(stdout, name, m, y)
}

// A mending, whose rows are x and whose list is t, or a compaction; the numbers u and n after it.
fn tidied(
    stdout: Stdout,
    name: &[u8],
    x: &[u16],
    t: &mut [u16],
    m: &mut [u8],
    i: &mut [u32],
    c: Counts,
) -> io::Result<Counts> {
    calls::mend(stdout, name, x, m, i, t, c)?;
    calls::compact(stdout, name, t, m, i, c)
}

// A document's check, a read, an update, a mending or a compaction; the numbers u and n after it.
fn treat(
    stdout: Stdout,
    name: &[u8],
    r: &[u16],
    p: &[u16],
    x: &[u16],
    t: &mut [u16],
    m: &mut [u8],
    y: &mut [u8],
    i: &mut [u32],
    c: Counts,
) -> io::Result<Counts> {
    calls::read(stdout, name, r, t, m, i, y, c)?;
    calls::delete(stdout, name, p, t, m, i, c)?;
    let after = calls::insert(stdout, name, p, x, t, m, i, c)?;
    tidied(stdout, name, x, t, m, i, after)
}

// The call of this name on the tables as far as they are in use; the numbers u and n after it.
fn call(
    stdout: Stdout,
    name: &[u8],
    r: &[u16],
    p: &[u16],
    x: &[u16],
    t: &mut [u16],
    l: &[u8],
    m: &mut [u8],
    y: &mut [u8],
    i: &mut [u32],
    c: Counts,
    v: usize,
) -> io::Result<Counts> {
    show::text(stdout, b"  ")?;
    show::text(stdout, name)?;
    ask(stdout, name, r, p, x, t, y, c.used, v)?;
    spell(stdout, name, r, x, t, l, m, y, c.used)?;
    let after = treat(stdout, name, r, p, x, t, m, y, i, c)?;
    show::text(stdout, b"\n")?;
    Ok(after)
}

// The same where a line asks for it.
fn called(
    stdout: Stdout,
    line: &[u8],
    r: &[u16],
    p: &[u16],
    x: &[u16],
    t: &mut [u16],
    l: &[u8],
    m: &mut [u8],
    y: &mut [u8],
    i: &mut [u32],
    s: Sizes,
) -> io::Result<Counts> {
    let words = s.t;
    let marks = s.m;
    let bytes = s.y;
    let names = s.i;
    let c = Counts {
        used: s.u,
        next: s.n,
    };
    if !begins(line, b'!') {
        return Ok(c);
    }
    if t.len() < words {
        return Ok(c);
    }
    if m.len() < marks {
        return Ok(c);
    }
    if y.len() < bytes {
        return Ok(c);
    }
    if i.len() < names {
        return Ok(c);
    }
    call(
        stdout,
        rest(line),
        front(r, s.r),
        front(p, s.p),
        front(x, s.x),
        &mut t[0..words],
        show::front(l, s.l),
        &mut m[0..marks],
        &mut y[0..bytes],
        &mut i[0..names],
        c,
        s.v,
    )
}

// Fills the table of words of the letter that a line begins with.
fn refilled_words(
    line: &[u8],
    r: &mut [u16],
    p: &mut [u16],
    x: &mut [u16],
    t: &mut [u16],
    s: Sizes,
) -> Sizes {
    let mut after = s;
    after.r = filled(line, b'r', r, s.r);
    after.p = filled(line, b'p', p, s.p);
    after.x = filled(line, b'x', x, s.x);
    after.t = filled(line, b't', t, s.t);
    after
}

// Fills the table of bytes.
fn refilled_bytes(line: &[u8], l: &mut [u8], m: &mut [u8], y: &mut [u8], s: Sizes) -> Sizes {
    let mut after = s;
    after.l = listed(line, l, s.l);
    after.m = written(line, m, s.m);
    after.y = filled_bytes(line, b'y', y, s.y);
    after
}

// Fills the row of identities, and says the numbers.
fn renumbered(line: &[u8], i: &mut [u32], s: Sizes, c: Counts) -> Sizes {
    let mut after = s;
    after.i = named(line, i, s.i, s.m);
    after.u = said(line, b'u', c.used);
    after.v = said(line, b'v', s.v);
    after.n = next(line, c.next, s.m);
    after
}

// Fills a table of bytes or the row of identities, and says the numbers.
fn refilled_rest(
    line: &[u8],
    l: &mut [u8],
    m: &mut [u8],
    y: &mut [u8],
    i: &mut [u32],
    s: Sizes,
    c: Counts,
) -> Sizes {
    let bytes = refilled_bytes(line, l, m, y, s);
    renumbered(line, i, bytes, c)
}

// Fills a table, where a line asks for it.
fn refilled(
    line: &[u8],
    r: &mut [u16],
    p: &mut [u16],
    x: &mut [u16],
    t: &mut [u16],
    l: &mut [u8],
    m: &mut [u8],
    y: &mut [u8],
    i: &mut [u32],
    s: Sizes,
    c: Counts,
) -> Sizes {
    let words = refilled_words(line, r, p, x, t, s);
    refilled_rest(line, l, m, y, i, words, c)
}

// Shows a table or calls, where a line asks for it; the numbers u and n after it.
fn shown(
    stdout: Stdout,
    line: &[u8],
    r: &[u16],
    p: &[u16],
    x: &[u16],
    t: &mut [u16],
    l: &[u8],
    m: &mut [u8],
    y: &mut [u8],
    i: &mut [u32],
    s: Sizes,
) -> io::Result<Counts> {
    reveal(stdout, line, t, m, y, i, s)?;
    called(stdout, line, r, p, x, t, l, m, y, i, s)
}

// What a line asks for. No two of these begin with the same byte.
fn obeyed(
    stdout: Stdout,
    line: &[u8],
    r: &mut [u16],
    p: &mut [u16],
    x: &mut [u16],
    t: &mut [u16],
    l: &mut [u8],
    m: &mut [u8],
    y: &mut [u8],
    i: &mut [u32],
    s: Sizes,
) -> io::Result<Sizes> {
    let c = shown(stdout, line, r, p, x, t, l, m, y, i, s)?;
    Ok(refilled(line, r, p, x, t, l, m, y, i, s, c))
}

// The line that ends at this place, empty where none does.
fn line_at(input: &[u8], from: usize, i: usize) -> &[u8] {
    if input.len() <= i {
        return &input[0..0];
    }
    if i < from {
        return &input[0..0];
    }
    if input[i] != b'\n' {
        return &input[0..0];
    }
    &input[from..i]
}

// Where the next line begins, if one ends here.
fn start(input: &[u8], from: usize, i: usize) -> usize {
    if i < input.len() {
        if input[i] == b'\n' {
            return i + 1;
        }
    }
    from
}

// Every line that ends in a line feed.
fn each(
    stdout: Stdout,
    input: &[u8],
    r: &mut [u16],
    p: &mut [u16],
    x: &mut [u16],
    t: &mut [u16],
    l: &mut [u8],
    m: &mut [u8],
    y: &mut [u8],
    i: &mut [u32],
) -> io::Result<()> {
    let mut s = Sizes {
        r: 0,
        p: 0,
        x: 0,
        t: 0,
        l: 0,
        m: 0,
        y: 0,
        i: 0,
        u: 0,
        v: 0,
        n: 0,
    };
    let mut from = 0;
    for at in 0..input.len() {
        s = obeyed(stdout, line_at(input, from, at), r, p, x, t, l, m, y, i, s)?;
        from = start(input, from, at);
    }
    Ok(())
}

pub(crate) fn run(stdout: Stdout, input: &[u8]) -> io::Result<()> {
    let mut r = word_room();
    let mut p = word_room();
    let mut x = word_room();
    let mut t = word_room();
    let mut l = byte_room();
    let mut m = byte_room();
    let mut y = byte_room();
    let mut i = identity_room();
    each(
        stdout, input, &mut r, &mut p, &mut x, &mut t, &mut l, &mut m, &mut y, &mut i,
    )
}
