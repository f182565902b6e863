// Reading an input and writing an output, with the numbers of bytes read and written.
#![tactic(auto)]

ghost use Rattle.std.specs.Prelude.{Bool, true, List, OnErr, ℕ, ◌≡◌, ◌+◌, ◌-◌, ◌≤◌, ◌<◌, length, take};
ghost use Rattle.stream.specs.Reading.{ReadOnceOf, FilledOf, MovedToFront, read_once, filled};
ghost use Rattle.stream.specs.Sent.{saturated, unread_by, sent_of, SentOf};
ghost use Rattle.stream.specs.Answered.{Answered, reading_in, sent_in};
ghost use Rattle.stream.specs.Received.{ReceivedOf, continues};

use std::io;
use std::io::{Read, Write};
use std::ops::ControlFlow;

// The number of bytes that writes took, where they did not take all that they were passed.
#[derive(Clone, Copy, PartialEq, Eq)]
pub struct Cut(pub usize);

// How many bytes a buffer holds, and whether the input has ended there; where it has not, the buffer is full.
// No plainer without the flag: an input may end just where the buffer is full.
#[derive(Clone, Copy, PartialEq, Eq)]
pub struct Filled {
    pub held: usize,
    pub ended: bool,
}

// Reads once, after the bytes that the buffer holds; returns how many it holds then: as many as before where the input has ended.
// The count is no struct with the buffer: what may not change, `read` and `fill` are public and ask no more of callers.
pub fn read<R: Read>(input: &mut R, buffer: &mut [u8], held: usize) -> io::Result<usize>
    requires { held ≤ length buffer.old }
    ensures { ReadOnceOf held buffer.old buffer.new (read_once held result) }
{
    Ok(held + input.read(&mut buffer[held..])?)
}

// Reads after the bytes that the buffer holds, until it is full or the input ends. The count stays beside the buffer, as in `read`.
pub fn fill<R: Read>(input: &mut R, buffer: &mut [u8], held: usize) -> io::Result<Filled>
    requires { held ≤ length buffer.old }
    ensures { FilledOf held buffer.old buffer.new (filled held result) }
{
    let mut end = held;
    // no plainer as a chain: each read begins where the last one ended
    while end < buffer.len() {
        let next = read(input, buffer, end)?;
        if next == end {
            return Ok(Filled {
                held: end,
                ended: true,
            });
        }
        end = next;
    }
    Ok(Filled {
        held: end,
        ended: false,
    })
}

// Moves the bytes from a place up to another to the front of the buffer; returns how many they are.
pub fn move_to_front(buffer: &mut [u8], from: usize, end: usize) -> usize
    requires { (from ≤ end) × (end ≤ length buffer.old) }
    ensures { MovedToFront from end buffer.old buffer.new result }
{
    buffer.copy_within(from..end, 0);
    end - from
}

// A count and more, which stops at the largest number that a count can be.
fn add(count: usize, more: usize) -> usize
    ensures { result ≡ saturated (count + more) }
{
    count.saturating_add(more)
}

// Passes bytes to writes on a program's output until all are taken, or a write fails or takes none; returns how many were taken, with the `count` before.
pub fn send<W: Write>(out: &mut W, count: usize, bytes: &[u8]) -> Result<usize, Cut>
    ensures { SentOf count bytes.now (sent_of result) }
{
    let mut at: usize = 0;
    // no plainer as a chain: each write begins where the last one ended
    while at < bytes.len() {
        match out.write(&bytes[at..]) {
            Ok(0) | Err(_) => return Err(Cut(add(count, at))),
            Ok(taken) => at += taken,
        }
    }
    Ok(add(count, at))
}

// Writes to a program's log that it could not read its input; returns how much of it writes took.
pub fn report_unread<W: Write>(out: &mut W, name: &[u8]) -> Result<usize, Cut>
    ensures { SentOf 0 (unread_by name.now) (sent_of result) }
{
    let count = send(out, 0, name)?;
    send(out, count, b": standard input could not be read\n")
}

// A program that answers an input by one text.
pub trait Program {
    // the text for an input
    ghost text: { List ℕ → List ℕ };

    // Writes the text for these bytes.
    fn print<W: Write>(out: &mut W, bytes: &[u8]) -> Result<usize, Cut>
        ensures { SentOf 0 (text bytes.now) (sent_of result) };
}

// What was read of an input, and how many bytes of the answer were written.
#[derive(Clone, Copy, PartialEq, Eq)]
pub struct Exchange {
    pub read: Filled,
    pub sent: Result<usize, Cut>,
}

// Reads an input until its end, or until the buffer is full, and prints the program's answer to it; a read that fails is reported, and nothing is printed.
// As many bytes as the buffer holds decide the answer.
// Input, output, log, name and buffer come apart, here, in `receive` and in `run`: a struct of five borrows with three
// type parameters would be built in each `main` for one call.
pub fn answer<P: Program, R: Read, W: Write, E: Write>(
    input: &mut R,
    out: &mut W,
    log: &mut E,
    name: &[u8],
    buffer: &mut [u8],
) -> io::Result<Exchange>
    requires { (bs : List ℕ) → P.text (take (length buffer.old) bs) ≡ P.text bs }
    ensures answered { Answered P.text buffer.new (reading_in result) (sent_in result) }
    ensures unread { OnErr result (out.new ≡ out.old) }
{
    let read = match fill(input, buffer, 0) {
        Ok(read) => read,
        Err(failure) => {
            let _ = report_unread(log, name);
            return Err(failure);
        }
    };
    let sent = P::print(out, &buffer[..read.held]);
    Ok(Exchange { read, sent })
}

// What came of bytes that were fed: how many were taken, what was written, and whether more are read.
#[derive(Clone, Copy)]
pub struct Round {
    pub taken: usize,
    pub sent: Result<usize, Cut>,
    pub flow: ControlFlow<()>,
}

// A program that is fed an input as it comes.
pub trait Feed {
    ghost use Rattle.stream.specs.declared.Round.{Round};

    // a round: the program, whether the input has ended, the bytes, the program after them, and what came of them
    ghost round: { Self → Bool → List ℕ → Self → Round → Type 0 };

    // fewer bytes are left where more are read
    ghost most: { ℕ };

    // Feeds bytes, and writes what they are answered by.
    fn feed<W: Write>(&mut self, out: &mut W, bytes: &[u8], ended: bool) -> Round
        ensures holds { round self.old ended bytes.now self.new result }
        ensures takes { result.taken ≤ length bytes.now }
        ensures short { continues result.flow ≡ true → length bytes.now - result.taken < most };
}

// What came of one read: how many bytes, the round with them, and how many bytes of the buffer are left.
#[derive(Clone, Copy)]
pub struct Received {
    pub came: usize,
    pub round: Round,
    pub held: usize,
}

// Reads once after the bytes that are left, and feeds all to the program; a read that fails is reported.
// The count stays beside the buffer, as in `read`.
pub fn receive<P: Feed, R: Read, W: Write, E: Write>(
    input: &mut R,
    out: &mut W,
    log: &mut E,
    name: &[u8],
    program: &mut P,
    buffer: &mut [u8],
    held: usize,
) -> io::Result<Received>
    requires { held < length buffer.old }
    ensures received { ReceivedOf P.round P.most program.old program.new held buffer.old buffer.new result }
    ensures unread { OnErr result (out.new ≡ out.old) }
{
    let end = match read(input, buffer, held) {
        Ok(end) => end,
        Err(failure) => {
            let _ = report_unread(log, name);
            return Err(failure);
        }
    };
    let came = end - held;
    let round = program.feed(out, &buffer[..end], came == 0);
    let held = move_to_front(buffer, round.taken, end);
    Ok(Received { came, round, held })
}

// Feeds a program its input until it reads no more, the input has ended or a read fails.
// A proved loop has to end, and no contract ensures that an input does: no run uses up this number of rounds.
pub fn run<P: Feed, R: Read, W: Write, E: Write>(
    input: &mut R,
    out: &mut W,
    log: &mut E,
    name: &[u8],
    program: &mut P,
    buffer: &mut [u8],
)
    requires { (0 < length buffer.old) × (P.most ≤ length buffer.old) }
    ensures { length buffer.new ≡ length buffer.old }
{
    let mut held: usize = 0;
    for _ in 0..u64::MAX {
        match receive(input, out, log, name, program, buffer, held) {
            Ok(received) if received.round.flow.is_continue() => held = received.held,
            _ => return,
        }
    }
}
