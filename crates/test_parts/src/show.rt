// Text to standard output.
use std::io;
use std::io::Stdout;

pub fn text(stdout: Stdout, s: &[u8]) -> io::Result<()> {
    stdout.write_all(s)
}

pub fn number(stdout: Stdout, n: usize) -> io::Result<()> {
    stdout.print(n)
}

// A number and a space.
pub fn spaced(stdout: Stdout, n: usize) -> io::Result<()> {
    number(stdout, n)?;
    text(stdout, b" ")
}

// The byte of a digit below 16.
pub fn digit(n: u64) -> u8 {
    if n % 16 < 10 {
        return (n % 16) as u8 + 48;
    }
    (n % 16) as u8 + 55
}

// Eight digits.
pub fn eight(stdout: Stdout, n: u64) -> io::Result<()> {
    text(
        stdout,
        &[
            digit(n / 268435456),
            digit(n / 16777216),
            digit(n / 1048576),
            digit(n / 65536),
            digit(n / 4096),
            digit(n / 256),
            digit(n / 16),
            digit(n),
        ],
    )
}
