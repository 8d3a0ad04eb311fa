// Lines of hexadecimal digits, and the printed plan.
ghost use Rattle.text_line_in.specs.Lines.{ReadAs};
ghost use Rattle.text_line_out.specs.Spelling.{WrittenAs};
ghost use Rattle.text_printer.specs.Printer.{PrintedAs};
ghost use Rattle.c_answer.specs.Answers.{Told};
ghost use Rattle.c_numbers.specs.Numbers.{of_parsed, of_spelled, of_printed};

use c_answer::answer::Answer;
use c_numbers::numbers;
use text_line_in::read_line;
use text_line_out::write_line;
use text_printer::print;

// From a line's bytes to its words; the line's number is its place in a refusal. First: the words.
pub fn sloefertand_read_line(s: &[u8], line: usize, words: &mut [u16]) -> Answer
    ensures { Told of_parsed (ReadAs s.now line words.old words.new) result }
{
    numbers(read_line(s, line, words))
}

// From words to the bytes of their line. First: the digits.
pub fn sloefertand_write_line(ws: &[u16], out: &mut [u8]) -> Answer
    ensures { Told of_spelled (WrittenAs ws.now out.old out.new) result }
{
    numbers(write_line(ws, out))
}

// From lines to the printed plan of their frames, or to the line of the first refusal. First: the bytes.
pub fn sloefertand_print(input: &[u8], out: &mut [u8]) -> Answer
    ensures { Told of_printed (PrintedAs input.now out.old out.new) result }
{
    numbers(print(input, out))
}
