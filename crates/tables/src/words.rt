// Words of a table as numbers. Outside the table each of these is 0, so that none asks anything of its caller.
ghost use Rattle.std.specs.Prelude.{◌≡◌, get_or};
ghost use Rattle.tables.specs.Words.{parent, tag};

// The word at i.
pub fn word(t: &[u16], i: usize) -> usize
    ensures { result ≡ get_or t.now i 0 }
{
    if i < t.len() {
        return usize::from(t[i]);
    }
    0
}

// The first word of pair v: a step's axis, a node's parent.
pub fn first_word(t: &[u16], v: usize) -> usize
    ensures { result ≡ parent t.now v }
{
    if v < t.len() - t.len() / 2 {
        return usize::from(t[2 * v]);
    }
    0
}

// The second word of pair v: a step's or a node's label.
pub fn second_word(t: &[u16], v: usize) -> usize
    ensures { result ≡ tag t.now v }
{
    if v < t.len() / 2 {
        return usize::from(t[2 * v + 1]);
    }
    0
}

// The mark byte at v.
pub fn byte(m: &[u8], v: usize) -> usize
    ensures { result ≡ get_or m.now v 0 }
{
    if v < m.len() {
        return usize::from(m[v]);
    }
    0
}
