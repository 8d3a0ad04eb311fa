// Whether the read at one place of a batch conflicts with the update at another, by the mode's verdict on the parts of the batch where they stand.
// What the verdict refuses is answered as a conflict: a read that stays where it is can do no harm.
#![tactic(auto)]

ghost use Rattle.std.specs.Prelude.{◌+◌, ◌*◌, ◌-◌, ◌≡◌, true, ◌↔◌, length};
ghost use Rattle.tables.specs.Limits.{step_limit};
ghost use Rattle.conflict.specs.Conflict.{delete, insert, Conflict, Deep};
ghost use Rattle.batch_mode.specs.Modes.{relation_of};
ghost use Rattle.batch_parts.specs.Parts.{part};
ghost use Rattle.batch_check.specs.Batches.{pattern_of, tree_of, update_of};
ghost use Rattle.batch_judge.specs.Judging.{Clash, said, said_deep};

use batch_mode::Mode;
use tables::limits::STEP_LIMIT;
use tables::refusal::Refusal;
use tables::words::word;
use verdict::{delete_verdict, insert_verdict};
use verdict_deep::{deep_delete_verdict, deep_insert_verdict};

// Words of the longest witness.
const WORDS: usize = 2 * (STEP_LIMIT + STEP_LIMIT - 1);

// Room for it.
fn scratch() -> [u16; WORDS]
    ensures { length result ≡ 2 * (step_limit + step_limit - 1) }
{
    [0; WORDS]
}

// Whether a verdict says that they clash.
fn clash(answer: Result<Option<usize>, Refusal>) -> bool
    ensures { result ≡ said answer }
{
    !matches!(answer, Ok(None))
}

// Whether a read and a delete conflict, if they are accepted.
fn delete_conflicts(r: &[u16], p: &[u16]) -> bool
    ensures { (result ≡ true) ↔ Clash Conflict r.now (delete p.now) }
{
    let mut out = scratch();
    clash(delete_verdict(r, p, &mut out))
}

// Whether a read and an insert conflict, if they are accepted.
fn insert_conflicts(r: &[u16], p: &[u16], x: &[u16]) -> bool
    ensures { (result ≡ true) ↔ Clash Conflict r.now (insert p.now x.now) }
{
    let mut out = scratch();
    clash(insert_verdict(r, p, x, &mut out))
}

// Whether a deep verdict says that they clash.
fn deep_clash(answer: Result<bool, Refusal>) -> bool
    ensures { result ≡ said_deep answer }
{
    answer.unwrap_or(true)
}

// Whether a read and a delete conflict deeply, if they are accepted.
fn delete_deeply(r: &[u16], p: &[u16]) -> bool
    ensures { (result ≡ true) ↔ Clash Deep r.now (delete p.now) }
{
    deep_clash(deep_delete_verdict(r, p))
}

// Whether a read and an insert conflict deeply, if they are accepted.
fn insert_deeply(r: &[u16], p: &[u16], x: &[u16]) -> bool
    ensures { (result ≡ true) ↔ Clash Deep r.now (insert p.now x.now) }
{
    deep_clash(deep_insert_verdict(r, p, x))
}

// A read and a delete, by the verdict of the mode.
fn delete_in(mode: Mode, r: &[u16], p: &[u16]) -> bool
    ensures { (result ≡ true) ↔ Clash (relation_of mode) r.now (delete p.now) }
{
    match mode {
        Mode::Node => delete_conflicts(r, p),
        Mode::Deep => delete_deeply(r, p),
    }
}

// A read and an insert, by the verdict of the mode.
fn insert_in(mode: Mode, r: &[u16], p: &[u16], x: &[u16]) -> bool
    ensures { (result ≡ true) ↔ Clash (relation_of mode) r.now (insert p.now x.now) }
{
    match mode {
        Mode::Node => insert_conflicts(r, p, x),
        Mode::Deep => insert_deeply(r, p, x),
    }
}

// So many words of the batch from here on, fewer where it ends.
fn taken(b: &[u16], from: usize, n: usize) -> &[u16]
    ensures { result.now ≡ part b.now from n }
{
    let all = b.len();
    if all <= from {
        return &b[0..0];
    }
    if all - from < n {
        return &b[from..all];
    }
    &b[from..from + n]
}

// The steps of the frame at a place.
fn steps(b: &[u16], at: usize) -> &[u16]
    ensures { result.now ≡ pattern_of b.now at }
{
    if b.len() <= at {
        return &b[0..0];
    }
    taken(b, at + 2, 2 * word(b, at + 1))
}

// Its nodes, where it is an insert.
fn nodes(b: &[u16], at: usize) -> &[u16]
    ensures { result.now ≡ tree_of b.now at }
{
    if b.len() <= at {
        return &b[0..0];
    }
    let end = at + 2 + 2 * word(b, at + 1);
    taken(b, end + 1, 2 * word(b, end))
}

// Whether the read at one place and the update at another conflict in this mode, if they are accepted.
pub fn conflicts(mode: Mode, b: &[u16], read: usize, update: usize) -> bool
    ensures { (result ≡ true) ↔ Clash (relation_of mode) (pattern_of b.now read) (update_of b.now update) }
{
    let r = steps(b, read);
    let p = steps(b, update);
    if word(b, update) == 2 {
        return insert_in(mode, r, p, nodes(b, update));
    }
    delete_in(mode, r, p)
}
