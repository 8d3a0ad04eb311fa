// The calls over a document's rows, each with the digest of what it answers and leaves.
use sloefertand::operations::{
    sloefertand_compact, sloefertand_v2_delete, sloefertand_v2_insert, sloefertand_v2_read,
};
use test_parts::chosen::chosen;
use test_parts::digest::{bytes, halves, refusal, rows, taken};
use test_parts::numbering::front_bytes;

// The read's bytes of the used nodes.
pub(crate) fn read(
    p: &[u16],
    table: &[u16],
    marks: &[u8],
    used: usize,
    ids: &[u32],
    next: u32,
    row: &mut [u8],
    d: u64,
) -> u64 {
    let a = sloefertand_v2_read(p, table, marks, used, ids, next, row);
    if a.refusal != 0 {
        return refusal(d, a);
    }
    bytes(d, front_bytes(row, used))
}

// The identities of the nodes that the read selects.
pub(crate) fn selected(
    p: &[u16],
    table: &[u16],
    marks: &[u8],
    used: usize,
    ids: &[u32],
    next: u32,
    row: &mut [u8],
    d: u64,
) -> u64 {
    let a = sloefertand_v2_read(p, table, marks, used, ids, next, row);
    if a.refusal != 0 {
        return refusal(d, a);
    }
    chosen(d, front_bytes(row, used), ids)
}

// What the delete reports, and every mark after it.
pub(crate) fn deleted(
    p: &[u16],
    table: &[u16],
    marks: &mut [u8],
    used: usize,
    ids: &[u32],
    next: u32,
    d: u64,
) -> u64 {
    let a = sloefertand_v2_delete(p, table, marks, used, ids, next);
    if a.refusal != 0 {
        return refusal(d, a);
    }
    bytes(taken(d, a.first), marks)
}

// What the insert reports, and all rows after it.
pub(crate) fn inserted(
    p: &[u16],
    x: &[u16],
    table: &mut [u16],
    marks: &mut [u8],
    used: usize,
    ids: &mut [u32],
    next: u32,
    d: u64,
) -> u64 {
    let a = sloefertand_v2_insert(p, x, table, marks, used, ids, next);
    if a.refusal != 0 {
        return refusal(d, a);
    }
    rows(
        halves(taken(taken(d, a.first), a.second), a.third),
        table,
        marks,
        ids,
    )
}

// What the compaction reports, and all rows after it.
pub(crate) fn compacted(
    table: &mut [u16],
    marks: &mut [u8],
    used: usize,
    ids: &mut [u32],
    next: u32,
    d: u64,
) -> u64 {
    let a = sloefertand_compact(table, marks, used, ids, next);
    if a.refusal != 0 {
        return refusal(d, a);
    }
    rows(taken(taken(d, a.first), a.second), table, marks, ids)
}

// The identities that the read selects after the compaction.
pub(crate) fn kept(
    p: &[u16],
    table: &mut [u16],
    marks: &mut [u8],
    used: usize,
    ids: &mut [u32],
    next: u32,
    row: &mut [u8],
    d: u64,
) -> u64 {
    let a = sloefertand_compact(table, marks, used, ids, next);
    selected(p, table, marks, a.first, ids, next, row, d)
}

// The insert after the compaction.
pub(crate) fn later(
    p: &[u16],
    x: &[u16],
    table: &mut [u16],
    marks: &mut [u8],
    used: usize,
    ids: &mut [u32],
    next: u32,
    d: u64,
) -> u64 {
    let a = sloefertand_compact(table, marks, used, ids, next);
    inserted(p, x, table, marks, a.first, ids, next, d)
}
