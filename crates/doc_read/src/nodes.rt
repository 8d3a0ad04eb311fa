// A node's parent, label and byte, and what stands at its parent, where they are known to be there.
ghost use Rattle.std.specs.Prelude.{◌<◌, ◌/◌, ◌≡◌, length, get_or};
ghost use Rattle.tables.specs.Words.{parent, tag};
ghost use Rattle.doc_read.specs.Standing.{carried_above, Placed};

pub(crate) fn parent_at(rows: &[u16], v: usize) -> usize
    requires { v < length rows.now / 2 }
    ensures { result ≡ parent rows.now v }
{
    usize::from(rows[2 * v])
}

pub(crate) fn label_at(rows: &[u16], v: usize) -> u16
    requires { v < length rows.now / 2 }
    ensures { result ≡ tag rows.now v }
{
    rows[2 * v + 1]
}

// A mark or a carry.
pub(crate) fn byte_at(bytes: &[u8], v: usize) -> u8
    requires { v < length bytes.now }
    ensures { result ≡ get_or bytes.now v 0 }
{
    bytes[v]
}

pub(crate) fn set_at(sets: &[u64], u: usize) -> u64
    requires { u < length sets.now }
    ensures { result ≡ get_or sets.now u 0 }
{
    sets[u]
}

// The set of v's parent; that of the node before v is in hand.
pub(crate) fn set_above(rows: &[u16], v: usize, sets: &[u64], near: u64) -> u64
    requires { (0 < v) × Placed rows.now v sets.now near }
    ensures { result ≡ get_or sets.now (parent rows.now v) 0 }
{
    let u = parent_at(rows, v);
    if u == v - 1 {
        return near;
    }
    set_at(sets, u)
}

// Whether the step before the word's first one stands at v's parent; before the first word there is none.
pub(crate) fn carried_above(from: usize, rows: &[u16], v: usize, carry: &[u8]) -> bool
    requires { (v < length rows.now / 2) × (parent rows.now v < v) × (v < length carry.now) }
    ensures { result ≡ carried_above from rows.now carry.now v }
{
    if from == 0 {
        return false;
    }
    let u = parent_at(rows, v);
    byte_at(carry, u) == 1
}
