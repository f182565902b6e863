// The line that is printed for an answer.
// By hand: of a lent slice `write!` promises how many bytes it wrote, and not which; `InlineText` has its own buffer.
ghost use Rattle.std.specs.Prelude.{[], ◌∷◌, ◌≤◌, length};
ghost use Rattle.text.specs.Output.{line_of};
ghost use Rattle.text.specs.Written.{Put};
ghost use Rattle.plan_text.specs.Checked.{answered};
ghost use Rattle.plan_text.specs.Printed.{longest_answer, plan_answer_line};

use crate::PlanAnswer;
use text::row::LINE;
use text::{first, row};

// Writes an answer, if there is one; returns where it ends.
#[tactic(auto, unfolding(crate::specs::Printed::plan_answer_line))]
pub fn put(line: &mut [u8; LINE], answer: Option<PlanAnswer>) -> usize
    ensures { (Put line.old 0 (plan_answer_line (answered answer)) line.new result) × (result ≤ longest_answer) }
{
    match answer {
        None => 0,
        Some(PlanAnswer::Accepted) => row::put(line, 0, b"accepted\n"),
        Some(PlanAnswer::Unfinished(tick)) => first::put_line(line, b"unfinished", &[tick as u64]),
        Some(PlanAnswer::Fault(number, tick)) => first::put_pair(line, b"fault", number, tick),
        Some(PlanAnswer::Refused(number, position)) => {
            first::put_pair(line, b"refused", number, position)
        }
        Some(PlanAnswer::Unread(number)) => first::put_line(line, b"unread", &[number as u64]),
    }
}
