// The words of a table, parsed from the decimal lines that the program is given. The modules write lines.
#![tactic(auto)]

ghost use Rattle.text.specs.Input.{read_in, ReadOf};

pub mod decimal; // decimal.rt: numbers in decimal
pub mod row; // row.rt: the text of a row
pub mod first; // first.rt: the first line
pub mod line; // line.rt: where a line ends and the number that it represents
pub mod words; // words.rt: the numbers of a table's text

use words::Words;

// The most numbers of a table's text: the words of a header and of 32 records.
pub const NUMBERS: usize = table::MOST_WORDS;

// The most digits of a line.
pub const DIGITS: usize = 10;

// The most bytes of a table's text.
pub const BYTES: usize = (DIGITS + 1) * NUMBERS;

// The number of bytes of an input that decide all that is printed for it: one more.
pub const ENOUGH: usize = BYTES + 1;

// The numbers of a table's text, or `None` where the bytes are no table's text.
pub fn read(bytes: &[u8]) -> Option<Words>
    ensures { ReadOf bytes.now (read_in result) }
{
    let mut words = [0u32; NUMBERS];
    let mut count: usize = 0;
    let mut at: usize = 0;
    // no plainer as a chain: `split` has one more line, an empty one, after a last newline
    while at < bytes.len() {
        let end = line::end_from(bytes, at, b'\n');
        let number = line::number(&bytes[at..end])?;
        if count == NUMBERS {
            return None;
        }
        words[count] = number;
        count += 1;
        at = end + 1;
    }
    Some(Words { count, words })
}
