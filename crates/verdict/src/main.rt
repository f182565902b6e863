// Reads a table from standard input, one decimal number a line, and prints the verdict line alone.
// A table that is longer than any can be is read no further; a read that fails is reported, and nothing is printed.
#![tactic(auto)]

ghost use Rattle.std.specs.Prelude.{◌≡◌};
ghost use Rattle.text.specs.Format.{words_of, numbers_in};
ghost use Rattle.text.specs.FirstLine.{first_for};
ghost use Rattle.judge.specs.Judged.{verdict_of};
ghost use Rattle.stream.specs.Sent.{SentOf, sent_of};

use judge::Verdict;
use std::io::Write;
use stream::{Cut, Program};
use text::ENOUGH;
use text::row::LINE;

// The verdict on a table's text; what is none has no numbers, and those are refused likewise: 1 0.
fn verdict_on(bytes: &[u8]) -> Verdict
    ensures { result ≡ verdict_of (numbers_in (words_of bytes.now)) }
{
    // No plainer as one in text: a new public function with its own clause, for these four lines in three crates.
    match text::read(bytes) {
        Some(words) => judge::judge(words.as_slice()),
        None => judge::judge(&[]),
    }
}

// The program `verdict`.
struct FirstLine;

impl Program for FirstLine {
    ghost text = { first_for };

    // No plainer as one with those of the other programs: three lines, over arrays of two lengths.
    fn print<W: Write>(out: &mut W, bytes: &[u8]) -> Result<usize, Cut> {
        let mut line = [0u8; LINE];
        let length = text::first::put_first(&mut line, verdict_on(bytes));
        stream::send(out, 0, &line[..length])
    }
}

// A main for each program: the runtime is handed to it alone, and all else is `stream::answer`.
fn main(rt: HostRuntime) {
    let mut bytes = [0u8; ENOUGH];
    let _ = stream::answer::<FirstLine, _, _, _>(
        &mut rt.stdin(),
        &mut rt.stdout(),
        &mut rt.stderr(),
        b"verdict",
        &mut bytes,
    );
}
