// Reads a table, a line `--` and a supplied plan from standard input as they come, and prints the answer: one line.
#![tactic(auto)]

ghost use Rattle.std.specs.Prelude.{◌≡◌};
ghost use Rattle.splitter.specs.Split.{too_many};
ghost use Rattle.stream.specs.Sent.{SentOf, sent_of};
ghost use Rattle.plan_text.specs.Check.{check_in};
ghost use Rattle.plan_text.specs.Checked.{answered};
ghost use Rattle.plan_text.specs.Printed.{plan_answer_line};
ghost use Rattle.plan_checker.specs.Rounds.{RoundOf};

use plan_text::{Check, PlanAnswer, answer_text};
use std::io::Write;
use std::ops::ControlFlow;
use stream::{Cut, Feed, Round};
use text::row::LINE;

// Prints the answer.
// No plainer as one with those of the other programs: three lines, over arrays of two lengths.
fn print<W: Write>(out: &mut W, answer: Option<PlanAnswer>) -> Result<usize, Cut>
    ensures { SentOf 0 (plan_answer_line (answered answer)) (sent_of result) }
{
    let mut line = [0u8; LINE];
    let length = answer_text::put(&mut line, answer);
    stream::send(out, 0, &line[..length])
}

// The program `plan_checker`: its check.
#[derive(Drop)]
struct PlanChecker {
    check: Check,
}

impl Feed for PlanChecker {
    ghost round = { λ old ended bytes new r. RoundOf (check_in old.check) ended bytes (check_in new.check) r };

    ghost most = { too_many };

    // Feeds bytes to the check, and prints the answer if it is known.
    fn feed<W: Write>(&mut self, out: &mut W, bytes: &[u8], ended: bool) -> Round {
        let fed = self.check.feed(bytes, ended);
        self.check = fed.check;
        if fed.check.is_over() {
            return Round {
                taken: fed.taken,
                sent: print(out, fed.check.answer()),
                flow: ControlFlow::Break(()),
            };
        }
        Round {
            taken: fed.taken,
            sent: Ok(0),
            flow: ControlFlow::Continue(()),
        }
    }
}

// A main for each program: the runtime is handed to it alone, and all else is `stream::run`.
fn main(rt: HostRuntime) {
    let mut checker = PlanChecker {
        check: Check::new(),
    };
    stream::run(
        &mut rt.stdin(),
        &mut rt.stdout(),
        &mut rt.stderr(),
        b"inspect",
        &mut checker,
        &mut io::buffer(),
    );
}
