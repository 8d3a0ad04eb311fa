// Run vectors: a script that fills tables, calls the library that other languages link, and shows what each call answered and left. `stdin`
// is the script, and its first lines say how to read it; `stdout` is what it should print, worked out from the documents.
#![tactic(auto)]

mod calls;
mod identity_rows;
mod numbers;
mod script;
mod show;

ghost use Rattle.std.specs.Prelude.{◌≡◌, ◌≤◌, length, IfOk};

use std::io;
use std::io::{Read, Stdin};

// Room for the script.
fn input_room() -> [u8; 131072]
    ensures { length result ≡ 131072 }
{
    [0; 131072]
}

// Reads until the input ends or there is no more room; how many bytes came.
fn read_input(stdin: Stdin, input: &mut [u8]) -> io::Result<usize>
    ensures { IfOk result (λ n. n ≤ length input.new) }
{
    let mut reader = stdin;
    let mut n = 0;
    while n < input.len() {
        let more = reader.read(&mut input[n..])?;
        if more == 0 {
            return Ok(n);
        }
        n += more;
    }
    Ok(n)
}

fn main(rt: HostRuntime) -> io::Result<()> {
    let mut input = input_room();
    let n = read_input(rt.stdin(), &mut input)?;
    script::run(rt.stdout(), &input[0..n])
}
