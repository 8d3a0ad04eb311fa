// The calls of a script, by name: each with the tables that it takes, its answer printed. A function here does nothing for other names.
use crate::show::{answer, front, text};
use c_answer::answer::Answer;
use check::same;
use sloefertand::batches::{sloefertand_plan, sloefertand_plan_in, sloefertand_step};
use sloefertand::checking::{
    sloefertand_check_pattern, sloefertand_check_tree, sloefertand_v2_check_document,
};
use sloefertand::evidence::{sloefertand_delete_evidence, sloefertand_insert_evidence};
use sloefertand::operations::{
    sloefertand_compact, sloefertand_mend, sloefertand_plain_reading, sloefertand_v2_delete,
    sloefertand_v2_insert, sloefertand_v2_read,
};
use sloefertand::patterns::{sloefertand_read_pattern, sloefertand_write_pattern};
use sloefertand::texts::{sloefertand_print, sloefertand_read_line, sloefertand_write_line};
use sloefertand::trees::{sloefertand_read_tree, sloefertand_write_tree};
use sloefertand::verdicts::{
    sloefertand_deep_delete_verdict, sloefertand_deep_insert_verdict, sloefertand_delete_verdict,
    sloefertand_insert_verdict,
};
use std::io;
use std::io::Stdout;

// The used count of a document, and its next identity.
#[derive(Clone, Copy)]
pub(crate) struct Counts {
    pub(crate) used: usize,
    pub(crate) next: u32,
}

// The checks of a pattern and of a tree, by a limit and a table.
pub(crate) fn check(
    stdout: Stdout,
    name: &[u8],
    r: &[u16],
    x: &[u16],
    u: usize,
    v: usize,
) -> io::Result<()> {
    if same(name, b"check pattern") {
        return answer(stdout, sloefertand_check_pattern(r, u, v), 0);
    }
    if same(name, b"check tree") {
        answer(stdout, sloefertand_check_tree(x, u, v), 0)?;
    }
    Ok(())
}

// The plain reading of a tree.
pub(crate) fn read_plain(
    stdout: Stdout,
    name: &[u8],
    r: &[u16],
    x: &[u16],
    y: &mut [u8],
) -> io::Result<()> {
    if same(name, b"plain reading") {
        answer(stdout, sloefertand_plain_reading(r, x, y), 0)?;
    }
    Ok(())
}

// The check of a document, and reading it.
pub(crate) fn read(
    stdout: Stdout,
    name: &[u8],
    r: &[u16],
    t: &[u16],
    m: &[u8],
    i: &[u32],
    y: &mut [u8],
    c: Counts,
) -> io::Result<()> {
    if same(name, b"check document") {
        return answer(
            stdout,
            sloefertand_v2_check_document(t, m, c.used, i, c.next),
            0,
        );
    }
    if same(name, b"read") {
        answer(
            stdout,
            sloefertand_v2_read(r, t, m, c.used, i, c.next, y),
            0,
        )?;
    }
    Ok(())
}

// Deleting; the used count and the next identity stay.
pub(crate) fn delete(
    stdout: Stdout,
    name: &[u8],
    p: &[u16],
    t: &[u16],
    m: &mut [u8],
    i: &[u32],
    c: Counts,
) -> io::Result<()> {
    if same(name, b"delete") {
        answer(stdout, sloefertand_v2_delete(p, t, m, c.used, i, c.next), 1)?;
    }
    Ok(())
}

// The used count and the next identity after an insert: a refused one leaves them.
fn grown(a: Answer, c: Counts) -> Counts {
    if a.refusal == 0 {
        return Counts {
            used: a.second,
            next: (a.third % 4294967296) as u32,
        };
    }
    c
}

// Inserting; the used count and the next identity after it.
pub(crate) fn insert(
    stdout: Stdout,
    name: &[u8],
    p: &[u16],
    x: &[u16],
    t: &mut [u16],
    m: &mut [u8],
    i: &mut [u32],
    c: Counts,
) -> io::Result<Counts> {
    if same(name, b"insert") {
        let a = sloefertand_v2_insert(p, x, t, m, c.used, i, c.next);
        answer(stdout, a, 3)?;
        return Ok(grown(a, c));
    }
    Ok(c)
}

// The used count after a compaction: a refused one leaves it.
fn closed(a: Answer, c: Counts) -> Counts {
    if a.refusal == 0 {
        return Counts {
            used: a.first,
            next: c.next,
        };
    }
    c
}

// Compacting; the used count after it.
pub(crate) fn compact(
    stdout: Stdout,
    name: &[u8],
    t: &mut [u16],
    m: &mut [u8],
    i: &mut [u32],
    c: Counts,
) -> io::Result<Counts> {
    if same(name, b"compact") {
        let a = sloefertand_compact(t, m, c.used, i, c.next);
        answer(stdout, a, 2)?;
        return Ok(closed(a, c));
    }
    Ok(c)
}

// Mending: the document's rows are x, and the list is t.
pub(crate) fn mend(
    stdout: Stdout,
    name: &[u8],
    x: &[u16],
    m: &mut [u8],
    i: &[u32],
    t: &mut [u16],
    c: Counts,
) -> io::Result<()> {
    if same(name, b"mend") {
        answer(stdout, sloefertand_mend(x, m, c.used, i, c.next, t), 1)?;
    }
    Ok(())
}

// The verdicts.
pub(crate) fn judge(
    stdout: Stdout,
    name: &[u8],
    r: &[u16],
    p: &[u16],
    x: &[u16],
    t: &mut [u16],
) -> io::Result<()> {
    if same(name, b"delete verdict") {
        return answer(stdout, sloefertand_delete_verdict(r, p, t), 1);
    }
    if same(name, b"insert verdict") {
        return answer(stdout, sloefertand_insert_verdict(r, p, x, t), 1);
    }
    if same(name, b"deep delete verdict") {
        return answer(stdout, sloefertand_deep_delete_verdict(r, p), 1);
    }
    if same(name, b"deep insert verdict") {
        answer(stdout, sloefertand_deep_insert_verdict(r, p, x), 1)?;
    }
    Ok(())
}

// The checks of another shop's witness.
pub(crate) fn evidence(
    stdout: Stdout,
    name: &[u8],
    r: &[u16],
    p: &[u16],
    x: &[u16],
    t: &[u16],
) -> io::Result<()> {
    if same(name, b"delete evidence") {
        return answer(stdout, sloefertand_delete_evidence(r, p, t), 1);
    }
    if same(name, b"insert evidence") {
        answer(stdout, sloefertand_insert_evidence(r, p, x, t), 1)?;
    }
    Ok(())
}

// The walker's step, and the plans.
pub(crate) fn plan(
    stdout: Stdout,
    name: &[u8],
    x: &[u16],
    t: &mut [u16],
    u: usize,
    v: usize,
) -> io::Result<()> {
    if same(name, b"step") {
        return answer(stdout, sloefertand_step(x, u, v), 4);
    }
    if same(name, b"plan") {
        return answer(stdout, sloefertand_plan(x, t), 1);
    }
    if same(name, b"plan in") {
        answer(stdout, sloefertand_plan_in(u, x, t), 1)?;
    }
    Ok(())
}

// Lines there and back.
pub(crate) fn spell(
    stdout: Stdout,
    name: &[u8],
    x: &[u16],
    t: &mut [u16],
    m: &[u8],
    u: usize,
    y: &mut [u8],
) -> io::Result<()> {
    if same(name, b"read line") {
        return answer(stdout, sloefertand_read_line(m, u, t), 1);
    }
    if same(name, b"write line") {
        answer(stdout, sloefertand_write_line(x, y), 1)?;
    }
    Ok(())
}

// Patterns as text, there and back.
pub(crate) fn pattern(
    stdout: Stdout,
    name: &[u8],
    l: &[u8],
    r: &[u16],
    t: &mut [u16],
    m: &[u8],
    y: &mut [u8],
) -> io::Result<()> {
    if same(name, b"read pattern") {
        return answer(stdout, sloefertand_read_pattern(l, m, t), 1);
    }
    if same(name, b"write pattern") {
        answer(stdout, sloefertand_write_pattern(l, r, y), 1)?;
    }
    Ok(())
}

// Trees as tags, there and back: where one is written, its bytes as they stand on lines of their own.
pub(crate) fn tree(
    stdout: Stdout,
    name: &[u8],
    x: &[u16],
    t: &mut [u16],
    m: &[u8],
    y: &mut [u8],
) -> io::Result<()> {
    if same(name, b"read tree") {
        return answer(stdout, sloefertand_read_tree(m, t), 1);
    }
    if same(name, b"write tree") {
        let a = sloefertand_write_tree(x, y);
        answer(stdout, a, 1)?;
        if a.refusal != 0 {
            return Ok(());
        }
        text(stdout, b"\n")?;
        text(stdout, front(y, a.first))?;
    }
    Ok(())
}

// The printed plan: for every one, its bytes as they stand on lines of their own.
pub(crate) fn print(stdout: Stdout, name: &[u8], m: &[u8], y: &mut [u8]) -> io::Result<()> {
    if same(name, b"print") {
        let a = sloefertand_print(m, y);
        answer(stdout, a, 1)?;
        text(stdout, b"\n")?;
        text(stdout, front(y, a.first))?;
    }
    Ok(())
}
