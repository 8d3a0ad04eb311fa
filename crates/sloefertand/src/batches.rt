// Walking a batch, and its plan.
ghost use Rattle.std.specs.Prelude.{◌≡◌};
ghost use Rattle.batch_walk.specs.Walking.{step_at};
ghost use Rattle.batch_plan.specs.Batch.{Plan, PlanIn};
ghost use Rattle.c_answer.specs.Answers.{Told};
ghost use Rattle.c_numbers.specs.Numbers.{of_stepped, of_planned};

use batch_plan::plan::{plan, plan_in};
use batch_walk::step;
use c_answer::answer::Answer;
use c_numbers::numbers;

// Frame n at a place of the batch. First: its kind, 0 where none is left; second: where it ends; third: its steps; fourth: its nodes.
pub fn sloefertand_step(b: &[u16], n: usize, at: usize) -> Answer
    ensures { result ≡ of_stepped (step_at b.now n at) }
{
    numbers(step(b, n, at))
}

// The deep plan of a batch, one word a frame. First: the frames.
pub fn sloefertand_plan(b: &[u16], out: &mut [u16]) -> Answer
    ensures { Told of_planned (Plan b.now out.old out.new) result }
{
    numbers(plan(b, out))
}

// The plan in the mode of this number: 1 for node, 2 for deep. First: the frames.
pub fn sloefertand_plan_in(mode: usize, b: &[u16], out: &mut [u16]) -> Answer
    ensures { Told of_planned (PlanIn mode b.now out.old out.new) result }
{
    numbers(plan_in(mode, b, out))
}
