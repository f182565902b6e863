// Slack: by how many ticks each task of a table alone may become longer.
#![tactic(auto)]

ghost use Rattle.slack.specs.Answer.{SlackOf, answered};

use model::{MOST_TASKS, Refusal};
use table::Fitting;

mod growth; // growth.rt: a table with one task longer, and the slack of a task

// The slack of each task in priority order, zeros past the count, of the table in these words; or the first of the table's numbers that applies, or 23 where
// it is not accepted under rule 2, nor under rule 1 in the width order.
pub fn slack(words: &[u32]) -> Result<[u32; MOST_TASKS], Refusal>
    ensures { SlackOf words.now (answered result) }
{
    let table = Fitting::load(words)?;
    if growth::is_given(table) {
        Ok(growth::figures(table))
    } else {
        Err(Refusal::SlackNotGiven)
    }
}
