// Patterns as text, with a list of names.
ghost use Rattle.text_pattern_in.specs.Reading.{ReadText};
ghost use Rattle.text_pattern_out.specs.Writing.{WriteText};
ghost use Rattle.c_answer.specs.Answers.{Told};
ghost use Rattle.c_numbers.specs.Numbers.{of_parsed, of_printed};

use c_answer::answer::Answer;
use c_numbers::numbers;
use text_pattern_in::read_pattern;
use text_pattern_out::write_pattern;

// From a pattern's text to its table. First: the words.
pub fn sloefertand_read_pattern(list: &[u8], s: &[u8], words: &mut [u16]) -> Answer
    ensures { Told of_parsed (ReadText list.now s.now words.old words.new) result }
{
    numbers(read_pattern(list, s, words))
}

// From a pattern's table to its text. First: the bytes.
pub fn sloefertand_write_pattern(list: &[u8], p: &[u16], out: &mut [u8]) -> Answer
    ensures { Told of_printed (WriteText list.now p.now out.old out.new) result }
{
    numbers(write_pattern(list, p, out))
}
