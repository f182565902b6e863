// Reads a table from standard input, and prints its verdict and rows.
// A table that is longer than any can be is read no further; a read that fails is reported, and nothing is printed.
#![tactic(auto)]

ghost use Rattle.std.specs.Prelude.{◌≤◌, take};
ghost use Rattle.text.specs.Output.{output};
ghost use Rattle.printer.specs.Printer.{rest};
ghost use Rattle.stream.specs.Sent.{SentOf, sent_of};

use printer::Printer;
use std::io::Write;
use stream::{Cut, Program};
use text::ENOUGH;

// Writes the pieces of a printer until there are no more, or until a write fails.
fn print_pieces<W: Write>(out: &mut W, start: Printer) -> Result<usize, Cut>
    ensures { SentOf 0 (rest start) (sent_of result) }
{
    let mut printer = start;
    let mut buffer = io::large_buffer();
    let mut count: usize = 0;
    loop {
        let piece = printer.piece(&mut buffer);
        if piece.length == 0 {
            return Ok(count);
        }
        count = stream::send(out, count, &buffer[..piece.length])?;
        printer = piece.printer;
    }
}

// The program `sivorandra`.
struct Rows;

impl Program for Rows {
    ghost text = { output };

    fn print<W: Write>(out: &mut W, bytes: &[u8]) -> Result<usize, Cut> {
        print_pieces(out, Printer::new(bytes))
    }
}

// A main for each program: the runtime is handed to it alone, and all else is `stream::answer`.
fn main(rt: HostRuntime) {
    let mut bytes = [0u8; ENOUGH];
    let _ = stream::answer::<Rows, _, _, _>(
        &mut rt.stdin(),
        &mut rt.stdout(),
        &mut rt.stderr(),
        b"sivorandra",
        &mut bytes,
    );
}
