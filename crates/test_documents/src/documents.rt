// The small documents: every tree of 1 to 4 nodes with every marking, by the tree's number t and the marking's m.
ghost use Rattle.std.specs.Prelude.{◌≤◌};

use sloefertand::checking::sloefertand_v2_check_document;
use test_parts::numbering::{front, front_bytes, nodes, tree, tree_code};
use test_parts::wide::{front_ids, narrowed};

// Nodes with no use yet behind a document's.
const FREE: usize = 4;

// The most nodes that a document has room for.
pub(crate) const ROOM: usize = 8;

// The nodes that a document has room for.
pub(crate) fn room(t: usize) -> usize
    ensures { result ≤ 8 }
{
    nodes(t) % 5 + FREE
}

// The tree's number and the marking's together.
fn both(t: usize, m: usize) -> usize {
    tree_code(t) % 1024 + m % 1024
}

// The length of its identity row: as many, or one fewer.
pub(crate) fn places(t: usize, m: usize) -> usize
    ensures { result ≤ 8 }
{
    if both(t, m) / 4 % 2 == 0 {
        return nodes(t) % 5 + FREE;
    }
    nodes(t) % 5 + 3
}

// Mark v of a marking, 9 behind the used nodes.
fn mark(m: usize, v: usize, used: usize) -> u8 {
    if used <= v {
        return 9;
    }
    if v == 1 {
        return (m / 2 % 2) as u8;
    }
    if v == 2 {
        return (m / 4 % 2) as u8;
    }
    if v == 3 {
        return (m / 8 % 2) as u8;
    }
    (m % 2) as u8
}

// Its marks.
pub(crate) fn marking(t: usize, m: usize) -> [u8; ROOM] {
    let used = nodes(t);
    [
        mark(m, 0, used),
        mark(m, 1, used),
        mark(m, 2, used),
        mark(m, 3, used),
        9,
        9,
        9,
        9,
    ]
}

// The next identity, as a number.
fn next_number(t: usize, m: usize) -> usize {
    let further = tree_code(t) % 5;
    let turn = both(t, m) % 4;
    if turn == 0 {
        return 24 + further;
    }
    if turn == 1 {
        return 65534 + further;
    }
    if turn == 2 {
        return 2147483646 + further;
    }
    4294967295 - further
}

// Its next identity.
pub(crate) fn next(t: usize, m: usize) -> u32 {
    narrowed(next_number(t, m))
}

// A number less another, 0 where that is greater.
pub(crate) fn less(x: usize, y: usize) -> usize {
    if x < y {
        return 0;
    }
    x - y
}

// How far before the next identity that of the node is which is so many before the end of the used ones, 1 for the last.
fn distance(back: usize, m: usize) -> usize {
    if back == 1 {
        return 1 + m % 3;
    }
    if back == 2 {
        return 4 + m % 3 * 2;
    }
    if back == 3 {
        return 9 + m % 3 * 3;
    }
    16 + m % 3 * 4
}

// The identity of node v, 99999 behind the used nodes.
fn id_of(t: usize, m: usize, v: usize) -> u32 {
    let used = nodes(t);
    if used <= v {
        return 99999;
    }
    narrowed(less(next_number(t, m), distance(used - v, m)))
}

// Its identities.
pub(crate) fn identities(t: usize, m: usize) -> [u32; ROOM] {
    [
        id_of(t, m, 0),
        id_of(t, m, 1),
        id_of(t, m, 2),
        id_of(t, m, 3),
        99999,
        99999,
        99999,
        99999,
    ]
}

// How many markings its tree has.
pub(crate) fn marking_count(t: usize) -> usize {
    let n = nodes(t);
    if n == 1 {
        return 2;
    }
    if n == 2 {
        return 4;
    }
    if n == 3 {
        return 8;
    }
    16
}

// Whether a marking is sound.
pub(crate) fn sound(t: usize, m: usize) -> bool {
    let mut table = [0u16; 16];
    tree(t, &mut table);
    let marks = marking(t, m);
    let ids = identities(t, m);
    let n = room(t);
    let a = sloefertand_v2_check_document(
        front(&table, 2 * n),
        front_bytes(&marks, n),
        nodes(t),
        front_ids(&ids, places(t, m)),
        next(t, m),
    );
    a.refusal == 0
}
