// The tasks in conflict: a table that misses, cut down to tasks of which none can be dropped.
#![tactic(auto)]

ghost use Rattle.conflict.specs.Answer.{ConflictOf, answered};

use model::Refusal;

pub mod links; // links.rt: the words of the kept tasks
mod passes; // passes.rt: the passes that drop the tasks that are not needed

// The tasks in conflict of the table in these words: the set of the positions kept, bit 0 for position 1. Or the first of the table's numbers that applies,
// or 17 where it has no miss.
pub fn conflict(words: &[u32]) -> Result<u32, Refusal>
    ensures { ConflictOf words.now (answered result) }
{
    let table = table::load(words)?;
    match judge::fastest::first_miss(table, table.horizon + 1) {
        None => Err(Refusal::NoMiss),
        Some(_) => Ok(passes::passes(words, table.count as u32)),
    }
}
