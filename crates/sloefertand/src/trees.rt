// Trees as nested tags.
ghost use Rattle.text_xml_in.specs.Reading.{ReadTree};
ghost use Rattle.text_xml_out.specs.Writing.{WriteTree};
ghost use Rattle.c_answer.specs.Answers.{Told};
ghost use Rattle.c_numbers.specs.Numbers.{of_parsed, of_printed};

use c_answer::answer::Answer;
use c_numbers::numbers;
use text_xml_in::read_tree;
use text_xml_out::write_tree;

// From a tree's table to its text. First: the bytes.
pub fn sloefertand_write_tree(t: &[u16], out: &mut [u8]) -> Answer
    ensures { Told of_printed (WriteTree t.now out.old out.new) result }
{
    numbers(write_tree(t, out))
}

// From a tree's text to its table. First: the words.
pub fn sloefertand_read_tree(s: &[u8], words: &mut [u16]) -> Answer
    ensures { Told of_parsed (ReadTree s.now words.old words.new) result }
{
    numbers(read_tree(s, words))
}
