// Another shop's witness: whether a read r and an update at p differ on a proposed tree t.
ghost use Rattle.conflict.specs.Conflict.{delete, insert};
ghost use Rattle.verdict_evidence.specs.Promise.{Checks};
ghost use Rattle.c_answer.specs.Answers.{Told};
ghost use Rattle.c_numbers.specs.Numbers.{of_evidence};

use c_answer::answer::Answer;
use c_numbers::numbers;
use verdict_evidence::{delete_evidence, insert_evidence};

// A read and a delete. First: the first node of t that is lost; 0 for no difference.
pub fn sloefertand_delete_evidence(r: &[u16], p: &[u16], t: &[u16]) -> Answer
    ensures { Told of_evidence (Checks r.now (delete p.now) t.now) result }
{
    numbers(delete_evidence(r, p, t))
}

// A read and an insert of the tree x. First: the first new node that is selected, numbered as the insert numbers it; 0 for no difference.
pub fn sloefertand_insert_evidence(r: &[u16], p: &[u16], x: &[u16], t: &[u16]) -> Answer
    ensures { Told of_evidence (Checks r.now (insert p.now x.now) t.now) result }
{
    numbers(insert_evidence(r, p, x, t))
}
