// The plan printer: from lines to the plan of their frames, in the mode that the first line may name, or to the first refusal.
#![tactic(auto)]

ghost use Rattle.tables.specs.Checks.{Fine};
ghost use Rattle.std.specs.Prelude.{◌+◌, ◌/◌, ◌≤◌, ◌≡◌, length};
ghost use Rattle.tables.specs.Limits.{batch_limit, digit_limit, frame_limit};
ghost use Rattle.batch_check.specs.Batches.{plan_check};
ghost use Rattle.text_printer.specs.Printer.{offset_in, PrintedAs};
ghost use Rattle.text_printer.specs.Reading.{Roomy, TakenAs, RanAs, InLine, PlanPrinted, LinesPrinted};

use batch_mode::Mode;
use batch_plan::plan::plan_by;
use batch_whole::frame_checked;
use tables::limits::{BATCH_LIMIT, DIGIT_LIMIT, FRAME_LIMIT};
use tables::refusal::{Reason, Refusal};
use text_first_line::first_line;
use text_line_in::read_line;
use text_parts::next_byte;
use text_plan_lines::{print_frames, print_refusal};

// All lines are taken: their frames, and the words in use.
#[derive(Clone, Copy)]
struct All {
    frames: usize,
    words: usize,
}

// A refusal ends the run: at which line, behind how many words, and why.
#[derive(Clone, Copy)]
struct Stop {
    line: usize,
    before: usize,
    why: Refusal,
}

// A line behind n lines, its words behind those in use.
fn take_line(line: &[u8], n: usize, used: usize, batch: &mut [u16]) -> Result<usize, Refusal>
    requires n_le_frame_limit { n ≤ frame_limit }
    requires roomy { Roomy used batch.old }
    ensures { TakenAs line.now n used batch.old batch.new result }
{
    let Ok(more) = read_line(line, n + 1, &mut batch[used..]) else {
        return Err(Refusal {
            reason: Reason::Line,
            table: 6,
            place: n + 1,
        });
    };
    let end = used + more;
    frame_checked(&batch[0..end], n, used)?;
    Ok(end)
}

// The lines one after another, their words and their frames' kinds kept; the first refusal ends the run.
fn read_lines(s: &[u8], batch: &mut [u16], kinds: &mut [u16]) -> Result<All, Stop>
    requires digit_limit_in_bounds { batch_limit + digit_limit / 4 ≤ length batch.old }
    requires frame_limit_in_bounds { frame_limit ≤ length kinds.old }
    ensures { RanAs s.now batch.new kinds.new result }
{
    let mut at = 0;
    let mut n = 0;
    let mut used = 0;
    while at < s.len() {
        let end = next_byte(s, at, 10);
        let words = match take_line(&s[at..end], n, used, batch) {
            Ok(words) => words,
            Err(why) => {
                return Err(Stop {
                    line: n + 1,
                    before: used,
                    why,
                });
            }
        };
        kinds[n] = batch[used];
        used = words;
        n += 1;
        at = end + 1;
    }
    Ok(All {
        frames: n,
        words: used,
    })
}

// Room for a word a frame.
fn places() -> [u16; FRAME_LIMIT]
    ensures { length result ≡ frame_limit }
{
    [0; FRAME_LIMIT]
}

// The plan of an accepted batch.
fn print_plan(mode: Mode, b: &[u16], kinds: &[u16], out: &mut [u8]) -> Result<usize, Refusal>
    requires { plan_check b.now frame_limit ≡ Fine }
    ensures { PlanPrinted mode b.now kinds.now out.old out.new result }
{
    let mut words = places();
    // The batch is accepted and there is a word for each frame, so the plan is not refused.
    let _ = plan_by(mode, b, &mut words);
    print_frames(kinds, &words, out)
}

// Words of a batch, and those of one line more.
const WORDS: usize = BATCH_LIMIT + DIGIT_LIMIT / 4;

// Room for them.
fn room() -> [u16; WORDS]
    ensures { length result ≡ batch_limit + digit_limit / 4 }
{
    [0; WORDS]
}

// The offset in the line behind so many words: a line that is malformed and a batch that is too long name none.
#[tactic(auto, unfolding(crate::specs::Printer::offset_in))]
fn offset_in(before: usize, why: Refusal) -> usize
    requires { InLine before why }
    ensures { result ≡ offset_in before why }
{
    match why.reason {
        Reason::Line | Reason::Batch => 0,
        _ => why.place - before,
    }
}

// The lines of frames, with so many lines above them: their plan in a mode, or the first refusal.
fn print_lines(mode: Mode, above: usize, input: &[u8], out: &mut [u8]) -> Result<usize, Refusal>
    requires { above ≤ 1 }
    ensures { LinesPrinted mode above input.now out.old out.new result }
{
    let mut batch = room();
    let mut kinds = places();
    match read_lines(input, &mut batch, &mut kinds) {
        Err(stop) => {
            let offset = offset_in(stop.before, stop.why);
            print_refusal(above + stop.line, stop.why.reason.number(), offset, out)
        }
        Ok(all) => print_plan(mode, &batch[0..all.words], &kinds[0..all.frames], out),
    }
}

// From lines to the printed plan, or to the first refusal: a first line that names the mode is line 1, and no frame.
pub fn print(input: &[u8], out: &mut [u8]) -> Result<usize, Refusal>
    ensures { PrintedAs input.now out.old out.new result }
{
    match first_line(input) {
        Ok(None) => print_lines(Mode::Deep, 0, input, out),
        Ok(Some((mode, at))) => print_lines(mode, 1, &input[at..], out),
        Err(why) => print_refusal(1, why.reason.number(), why.place, out),
    }
}
