// The plan of a batch: one word a frame.
ghost use Rattle.std.specs.Prelude.{◌≡◌, length};
ghost use Rattle.batch_frame.specs.Frames.{end_of};
ghost use Rattle.batch_check.specs.Batches.{batch_of};
ghost use Rattle.batch_mode.specs.Modes.{relation_of};
ghost use Rattle.batch_plan.specs.Batch.{PlanWritten, PlanOf, Plan, PlanIn};
ghost use Rattle.batch_plan.specs.Walking.{Standing, Planning};

use batch_check::checked;
use batch_judge::conflicts;
use batch_mode::Mode;
use tables::limits::FRAME_LIMIT;
use tables::refusal::Refusal;
use tables::words::word;

// Where a frame ends.
fn frame_end(b: &[u16], at: usize) -> usize
    requires { Standing b.now at }
    ensures { result ≡ end_of b.now at }
{
    let end = at + 2 + 2 * word(b, at + 1);
    if word(b, at) != 2 {
        return end;
    }
    end + 1 + 2 * word(b, end)
}

// An update gets its number, a read its slot: the nearest earlier update that conflicts, looked for from the read backwards, or 0.
// The search is a `loop` and no `for`: document 01 asks that it is left by `break` with the slot as value.
fn write(mode: Mode, b: &[u16], n: usize, out: &mut [u16])
    requires { Planning b.now n (length out.old) }
    ensures { PlanWritten (relation_of mode) (batch_of b.now) out.old out.new }
{
    let mut places = [0; FRAME_LIMIT];
    let mut updates = 0;
    let mut at = 0;
    for k in 0..n {
        let here = at;
        at = frame_end(b, here);
        if word(b, here) != 1 {
            places[updates] = here;
            updates += 1;
            out[k] = updates as u16;
            continue;
        }
        let mut j = updates;
        let slot = loop {
            if j == 0 {
                break 0;
            }
            if conflicts(mode, b, here, places[j - 1]) {
                break j;
            }
            j -= 1;
        };
        out[k] = slot as u16;
    }
}

// The whole batch is checked before a word is written.
pub fn plan_by(mode: Mode, b: &[u16], out: &mut [u16]) -> Result<usize, Refusal>
    ensures { PlanOf (relation_of mode) b.now out.old out.new result }
{
    let n = checked(b, out.len())?;
    write(mode, b, n, out);
    Ok(n)
}

// No mode is named: deep.
pub fn plan(b: &[u16], out: &mut [u16]) -> Result<usize, Refusal>
    ensures { Plan b.now out.old out.new result }
{
    plan_by(Mode::Deep, b, out)
}

// The mode by its number: 1 for node, 2 for deep, refusal 8 for another.
pub fn plan_in(mode: usize, b: &[u16], out: &mut [u16]) -> Result<usize, Refusal>
    ensures { PlanIn mode b.now out.old out.new result }
{
    let mode = Mode::try_from(mode)?;
    plan_by(mode, b, out)
}
