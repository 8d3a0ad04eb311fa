// Whether a read r and an update at p conflict.
ghost use Rattle.conflict.specs.Conflict.{delete, insert};
ghost use Rattle.verdict.specs.Promise.{NodeVerdict};
ghost use Rattle.verdict_deep.specs.Promise.{DeepVerdict};
ghost use Rattle.c_answer.specs.Answers.{Told};
ghost use Rattle.c_numbers.specs.Numbers.{of_verdict, of_deeply};

use c_answer::answer::Answer;
use c_numbers::numbers;
use verdict::{delete_verdict, insert_verdict};
use verdict_deep::{deep_delete_verdict, deep_insert_verdict};

// A read and a delete. First: the nodes of the smallest witness, which is written; 0 for no conflict.
pub fn sloefertand_delete_verdict(r: &[u16], p: &[u16], out: &mut [u16]) -> Answer
    ensures { Told of_verdict (NodeVerdict r.now (delete p.now) out.old out.new) result }
{
    numbers(delete_verdict(r, p, out))
}

// A read and an insert of the tree x. First: as for a delete.
pub fn sloefertand_insert_verdict(r: &[u16], p: &[u16], x: &[u16], out: &mut [u16]) -> Answer
    ensures { Told of_verdict (NodeVerdict r.now (insert p.now x.now) out.old out.new) result }
{
    numbers(insert_verdict(r, p, x, out))
}

// A read and a delete, at and below the read nodes too. First: 1 for yes, 0 for no.
pub fn sloefertand_deep_delete_verdict(r: &[u16], p: &[u16]) -> Answer
    ensures { Told of_deeply (DeepVerdict r.now (delete p.now)) result }
{
    numbers(deep_delete_verdict(r, p))
}

// A read and an insert of the tree x, at and below the read nodes too. First: 1 for yes, 0 for no.
pub fn sloefertand_deep_insert_verdict(r: &[u16], p: &[u16], x: &[u16]) -> Answer
    ensures { Told of_deeply (DeepVerdict r.now (insert p.now x.now)) result }
{
    numbers(deep_insert_verdict(r, p, x))
}
