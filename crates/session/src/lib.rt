// A session: the table and the operations of a run, read as they come, and the reply to each.
#![tactic(auto)]

ghost use Rattle.std.specs.Prelude.{◌≡◌};
ghost use Rattle.session.specs.declared.Stage.TheVariants.{Table, Operations};
ghost use Rattle.session.specs.Session.{transcript_in, is_over, fed_with, FedBy, FedOf, NewOf};

mod open; // open.rt: the table, and the run that it starts
pub mod operations; // operations.rt: the operation of a line
mod replies; // replies.rt: the reply to an operation

use model::MOST_TASKS;
use run::Run;

// A line of this number of bytes is no operation: one more than a letter and two numbers, each with a space before it.
const NONE_LONG: usize = 1 + 2 * (1 + text::DIGITS) + 1;

// The most bytes of a reply: `sets`, for each of 32 positions a space and up to 20 digits, and a newline.
pub const REPLY: usize = 4 + MOST_TASKS * (1 + 20) + 1;

// What the next bytes are read as: the table, the operations, or nothing any more.
// Not plan_text's Check, whose cases hold their data.
#[derive(Clone, Copy)]
pub enum Stage {
    Table,
    Operations,
    Over,
}

// The state of a session: its stage, and the run.
// A tag beside the run: what may not change, `transcript_of` of specs/Session, is of `s.stage` and `s.run`.
#[derive(Clone, Copy)]
pub struct Session {
    pub stage: Stage,
    pub run: Run,
}

// The number of bytes taken, the number of bytes written, and the session after them.
// No plainer as one with plan_text's, which writes nothing.
// The buffer is the caller's, and a count of its bytes is returned, as a read does.
#[derive(Clone, Copy)]
pub struct Fed {
    pub session: Session,
    pub taken: usize,
    pub length: usize,
}

// A session in a stage, after a number of bytes taken and a number of bytes written.
fn fed_with(stage: Stage, run: Run, taken: usize, length: usize) -> Fed
    ensures { result ≡ fed_with stage run taken length }
{
    Fed {
        session: Session { stage, run },
        taken,
        length,
    }
}

impl Session {
    // A session before its first byte. Not inlined, as `feed_table`.
    #[inline(never)]
    #[tactic(auto, unfolding(crate::specs::Transcript::transcript, crate::specs::Transcript::transcript_so_far))]
    pub fn new() -> Session
        ensures { NewOf result }
    {
        Session {
            stage: Stage::Table,
            run: run::starts::empty(),
        }
    }

    // The table, once it has ended, and the answer to it; a text longer than any table can be ends the session.
    // No plainer as one with plan_text's: three lines are alike, and what follows the table differs.
    // Not inlined: the tasks of an empty run are written one by one, and beside them each copy of a run in an operation would be.
    #[inline(never)]
    fn feed_table(self, bytes: &[u8], ended: bool, out: &mut [u8; REPLY]) -> Fed
        ensures { FedBy (transcript_in Table self.run) ended bytes.now out.old out.new result }
    {
        let Some(part) = splitter::table(bytes, ended) else {
            return fed_with(Stage::Table, self.run, 0, 0);
        };
        let begun = open::begin(&bytes[..part.end], out);
        if text::BYTES < part.end {
            return fed_with(Stage::Over, begun.run, part.next, begun.length);
        }
        fed_with(Stage::Operations, begun.run, part.next, begun.length)
    }

    // The first operation, once its line has ended, and the reply to it; a line longer than any operation is none.
    fn feed_operations(self, bytes: &[u8], ended: bool, out: &mut [u8; REPLY]) -> Fed
        ensures { FedBy (transcript_in Operations self.run) ended bytes.now out.old out.new result }
    {
        let Some(part) = splitter::line(bytes, NONE_LONG, ended) else {
            return fed_with(Stage::Operations, self.run, 0, 0);
        };
        let Some(operation) = operations::operation_of(&bytes[..part.end]) else {
            let length = replies::write_line(b"not an operation", &[], out);
            return fed_with(Stage::Over, self.run, bytes.len(), length);
        };
        let reply = replies::answer(self.run, operation, out);
        fed_with(Stage::Operations, reply.run, part.next, reply.length)
    }

    // Takes the table or a line of the bytes, where it has ended or the input has, and writes the reply to it; what is left is to be fed again.
    // A `match` on the stage and no closure: a session may be of any stage (`FedOf`).
    pub fn feed(self, bytes: &[u8], ended: bool, out: &mut [u8; REPLY]) -> Fed
        ensures { FedOf self ended bytes.now out.old out.new result }
    {
        match self.stage {
            Stage::Table => self.feed_table(bytes, ended, out),
            Stage::Operations => self.feed_operations(bytes, ended, out),
            Stage::Over => fed_with(Stage::Over, self.run, bytes.len(), 0),
        }
    }

    // Whether the session is over: it writes nothing any more, whatever comes.
    pub fn is_over(self) -> bool
        ensures { result ≡ is_over self.stage }
    {
        matches!(self.stage, Stage::Over)
    }
}
