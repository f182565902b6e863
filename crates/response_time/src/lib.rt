// The worst-case response time of each task's full-length jobs.
#![tactic(auto)]

ghost use Rattle.response_time.specs.ResponseTimes.{ResponseTimesOf, answered};

use model::{MOST_TASKS, Refusal};
use table::Fitting;

mod recording; // recording.rt: what is late at a tick, and the response times of the jobs that end
mod walk; // walk.rt: the full-length run, jump by jump, and its response times

// The worst-case response time of each task in priority order, zeros past the count, of the table in these words; or the first of the table's numbers that
// applies, or 13 where its verdict is Miss.
pub fn response_times(words: &[u32]) -> Result<[u32; MOST_TASKS], Refusal>
    ensures { ResponseTimesOf words.now (answered result) }
{
    // By `match`: a wrong number for the refusal is then refused as a value (must-fail/thirteen_for_nine), and not for the form of the line.
    match Fitting::load(words) {
        Ok(fitting) => walk::times_of(fitting),
        Err(refusal) => Err(refusal),
    }
}
