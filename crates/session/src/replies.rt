// The reply to an operation.
ghost use Rattle.std.specs.Prelude.{◌≡◌, Some, [], ◌∷◌, ◌≤◌, length, take, IfOk, IfErr};
ghost use Rattle.text.specs.Output.{letters, line_of};
ghost use Rattle.model.specs.Refusal.{number_of, position_of};
ghost use Rattle.session.specs.Operation.{longest_reply, reply, run_after};
ghost use Rattle.session.specs.Session.{TextWritten, RefusedOf};

use crate::REPLY;
use crate::operations::Operation;
use model::{ROW, Refusal};
use run::Run;
use text::row::CELLS;
use text::{first, row};

// The length of a reply, and the run after it.
// The buffer is the caller's, and a count of its bytes is returned, as a read does.
#[derive(Clone, Copy)]
pub struct Reply {
    pub run: Run,
    pub length: usize,
}

// Writes a line of a word and numbers, a space before each; returns where it ends.
// That a text is written stands in each clause, and no type can say it: each names another text.
pub(crate) fn write_line(word: &[u8], numbers: &[u64], out: &mut [u8; REPLY]) -> usize
    requires { length (line_of word.now numbers.now) ≤ longest_reply }
    ensures { TextWritten (line_of word.now numbers.now) out.old out.new result }
{
    first::put_line(out, word, numbers)
}

// Writes a refusal with its number and position; returns where it ends.
// By hand, as text's functions, which it calls.
pub(crate) fn write_refused(refusal: Refusal, out: &mut [u8; REPLY]) -> usize
    ensures { TextWritten (line_of (letters "refused") (number_of refusal ∷ position_of refusal ∷ [])) out.old out.new result }
{
    first::put_pair(out, b"refused", refusal.number(), refusal.position())
}

// Writes the bytes of the first cores of a row.
// By hand, as text's functions, which it calls.
fn write_cores(cores: u32, bytes: [u8; ROW], out: &mut [u8; REPLY]) -> usize
    ensures { TextWritten (line_of (letters "row") (take cores bytes)) out.old out.new result }
{
    let mut text = [0u8; CELLS];
    let count = (cores as usize).min(ROW);
    let size = row::put_cells(bytes, count, &mut text);
    let start = row::put(out, 0, b"row");
    row::put(out, start, &text[..size])
}

// Does an operation on a run, and writes the reply to it; returns where it ends. A refusal is handed on, nothing is written, and the run stays.
fn done(run: &mut Run, operation: Operation, out: &mut [u8; REPLY]) -> Result<usize, Refusal>
    ensures done { IfOk result (λ n. TextWritten (reply (Some operation) run.old) out.old out.new n × (run.new ≡ run_after (Some operation) run.old)) }
    ensures refused { IfErr result (λ e. RefusedOf (Some operation) run.old e × (run.new ≡ run.old) × (out.new ≡ out.old)) }
{
    match operation {
        Operation::Advance(reports, empties) => {
            *run = run.advance(reports, empties)?;
            Ok(write_line(b"taken", &[], out))
        }
        Operation::Withdraw(position) => {
            *run = run.withdraw(position)?;
            Ok(write_line(b"taken", &[], out))
        }
        Operation::WithdrawAll(set) => {
            *run = run.withdraw_all(set)?;
            Ok(write_line(b"taken", &[], out))
        }
        Operation::Row(empties) => {
            let bytes = run.row(empties)?;
            Ok(write_cores(run.cores, bytes, out))
        }
        Operation::Sets(empties) => {
            let sets = run.sets(empties)?;
            Ok(write_line(b"sets", &sets, out))
        }
        Operation::Working(empties) => {
            let set = run.working(empties)?;
            Ok(write_line(b"working", &[set as u64], out))
        }
    }
}

// Does an operation, and writes the reply to it, or its refusal.
pub(crate) fn answer(run: Run, operation: Operation, out: &mut [u8; REPLY]) -> Reply
    ensures { TextWritten (reply (Some operation) run) out.old out.new result.length × (result.run ≡ run_after (Some operation) run) }
{
    let mut next = run;
    match done(&mut next, operation, out) {
        Ok(length) => Reply { run: next, length },
        Err(refusal) => Reply {
            run: next,
            length: write_refused(refusal, out),
        },
    }
}
