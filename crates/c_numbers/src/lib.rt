// The numbers of each answer, as they go out to C and Rust: a refusal, or the values.
#![tactic(auto)]

ghost use Rattle.std.specs.Prelude.{◌≡◌};
ghost use Rattle.c_answer.specs.declared.answer.Answer.{Answer};
ghost use Rattle.c_numbers.specs.Numbers.{no_value, count, yes_or_no, if_any, extent, copied, closed, of_answer};

use c_answer::answer::{Answer, giving, refusing};
use outcomes::frames::Extent;
use outcomes::updates::{Compacted, Inserted};
use tables::refusal::Refusal;

// What an operation found or did, as the values of an answer.
pub trait Values {
    ghost values: { Self → Answer };

    fn values(self) -> Answer
        ensures { result ≡ values self };
}

// A check or a read: no value.
impl Values for () {
    ghost values = { no_value };

    fn values(self) -> Answer {
        giving(0, 0, 0, 0)
    }
}

// One number, of a count or a node: itself.
impl Values for usize {
    ghost values = { count };

    fn values(self) -> Answer {
        giving(self, 0, 0, 0)
    }
}

// Yes or no: 1 or 0.
impl Values for bool {
    ghost values = { yes_or_no };

    fn values(self) -> Answer {
        giving(usize::from(self), 0, 0, 0)
    }
}

// What may be found: its values, and none where nothing is.
impl<T: Values> Values for Option<T> {
    ghost values = { if_any T.values };

    fn values(self) -> Answer {
        match self {
            None => ().values(),
            Some(found) => found.values(),
        }
    }
}

// A frame: its kind, its end, its steps and its nodes.
impl Values for Extent {
    ghost values = { extent };

    fn values(self) -> Answer {
        giving(self.kind, self.next, self.steps, self.nodes)
    }
}

// An insert: the copies, the new used count and the new next identity.
impl Values for Inserted {
    ghost values = { copied };

    fn values(self) -> Answer {
        giving(self.copies, self.used, self.next, 0)
    }
}

// A compaction: the new used count, and how many nodes were dropped.
impl Values for Compacted {
    ghost values = { closed };

    fn values(self) -> Answer {
        giving(self.used, self.dropped, 0, 0)
    }
}

// The numbers of an operation's answer: a refusal, or the values.
pub fn numbers<T: Values>(answer: Result<T, Refusal>) -> Answer
    ensures { result ≡ of_answer T.values answer }
{
    match answer {
        Ok(done) => done.values(),
        Err(r) => refusing(r),
    }
}
