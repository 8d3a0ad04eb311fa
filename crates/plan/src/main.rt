// The plan printer: lines from standard input, their plan or the first refusal to standard output.
#![tactic(auto)]

ghost use Rattle.std.specs.Prelude.{◌≤◌, ◌≡◌, length, IfOk};
ghost use Rattle.text_printer.specs.Enough.{printed_most, input_most};
ghost use Rattle.plan.specs.Plan.{TextAt};

use std::io;
use std::io::{Read, Stdin, Stdout};
use tables::limits::{BATCH_LIMIT, DIGIT_LIMIT, FRAME_LIMIT};
use text_printer::print;

// The lines of frames that count: those that are taken, and behind them one digit more than a line may have.
const FRAMES_MOST: usize = 4 * BATCH_LIMIT + FRAME_LIMIT + DIGIT_LIMIT + 1;

// The input that counts: above those lines a mode line may stand, eight digits and a line feed.
const INPUT_MOST: usize = FRAMES_MOST + 9;

fn input_room() -> [u8; INPUT_MOST]
    ensures { length result ≡ input_most }
{
    [0; INPUT_MOST]
}

// The longest text: thirteen bytes a frame.
const PRINTED_MOST: usize = 13 * FRAME_LIMIT;

fn output_room() -> [u8; PRINTED_MOST]
    ensures { length result ≡ printed_most }
{
    [0; PRINTED_MOST]
}

// The text of these bytes, into room for every text: it is never refused.
fn text(input: &[u8], out: &mut [u8]) -> usize
    requires { printed_most ≤ length out.old }
    ensures { TextAt input.now out.new result }
{
    match print(input, out) {
        Err(_) => 0,
        Ok(n) => n,
    }
}

// What is printed for these bytes.
fn print_all(stdout: Stdout, input: &[u8]) -> io::Result<()> {
    let mut out = output_room();
    let n = text(input, &mut out);
    stdout.write_all(&out[0..n])
}

// Reads until the input ends or there is no more room, and answers how many bytes came.
fn read_input(stdin: Stdin, input: &mut [u8]) -> io::Result<usize>
    ensures { IfOk result (λ n. n ≤ length input.new) }
{
    let mut reader = stdin;
    let mut n = 0;
    while n < input.len() {
        let more = reader.read(&mut input[n..])?;
        if more == 0 {
            return Ok(n);
        }
        n += more;
    }
    Ok(n)
}

// Where a read fails, nothing is printed. Where a write fails, the program ends with its error.
fn main(rt: HostRuntime) -> io::Result<()> {
    let mut input = input_room();
    match read_input(rt.stdin(), &mut input) {
        Err(_) => rt
            .stderr()
            .write_all(b"plan: the input could not be read\n"),
        Ok(n) => print_all(rt.stdout(), &input[0..n]),
    }
}
