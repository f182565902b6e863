// The walk along the chain: numbers 5 and 6, and the tasks in priority order.
ghost use Rattle.std.specs.Prelude.{◌≡◌};
ghost use Rattle.table.specs.Words.{task_in};
ghost use Rattle.table.specs.Answer.{header_number};
ghost use Rattle.table.specs.Load.{code_task, WalkOf};

use crate::{HEADER, RECORD, Task};
use model::{MOST_TASKS, Refusal};

// The tasks in priority order, zeros past the count.
// An array with its count stands for a list, without a heap.
#[derive(Clone, Copy)]
pub struct Chain {
    pub count: usize,
    pub tasks: [Task; MOST_TASKS],
}

impl From<[u32; RECORD]> for Task {
    ghost from_gives = { λ words task. task ≡ code_task (task_in words) };

    // The task of a record; its first word is the next one's number.
    fn from(words: [u32; RECORD]) -> Task {
        let [_, offset, width, length, deadline, period, second] = words;
        Task {
            offset,
            width,
            length,
            deadline,
            period,
            second,
        }
    }
}

// The walk along the chain of a table whose header passes, to the zero that ends it.
// A walk by hand: the supplier's words are the chain, and each next is read from the record before.
pub(crate) fn walk(words: &[u32]) -> Result<Chain, Refusal>
    requires { header_number words.now ≡ 0 }
    ensures { WalkOf words.now result }
{
    let (records, _) = words[HEADER..].as_chunks::<RECORD>();
    let mut tasks = [Task::default(); MOST_TASKS];
    let mut seen = [false; MOST_TASKS];
    let mut count: usize = 0;
    let mut at = words[0] as usize;
    while at != 0 {
        if records.len() < at {
            return Err(Refusal::NoRecord);
        }
        let index = at - 1;
        if seen[index] {
            return Err(Refusal::RecordAgain);
        }
        seen[index] = true;
        let record = records[index];
        tasks[count] = Task::from(record);
        at = record[0] as usize;
        count += 1;
    }
    Ok(Chain { count, tasks })
}
