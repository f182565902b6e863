// The interference test: a table that passes misses no deadline, and is not simulated. One that does not pass may still be met.
#![tactic(auto)]

ghost use Rattle.std.specs.Prelude.{cond, ◌≡◌, suc, ◌-◌, ◌≤◌};
ghost use Rattle.model.specs.Sizes.{most_cores};
ghost use Rattle.table.specs.Fit.{loaded_table, Fit};
ghost use Rattle.interference.specs.Bounds.{BoundsOf, TestedOf, answered, tested_in};

use model::{MOST_TASKS, Refusal};
use search::Search;
use table::{Fitting, Loaded};

mod search; // search.rt: the window of a place
mod workload; // workload.rt: the interference on a place

// How many cores the places above are given at least while a job waits, where `free` cores are unfenced and a width of `refused` does not fit.
fn need_of(free: u32, refused: u32) -> u32
    requires { free ≤ most_cores }
    ensures { (result ≡ suc free - refused) × (result ≤ 65) }
{
    (free + 1).saturating_sub(refused)
}

// The widest up to a place where a job that does not fit ends the choosing, else its own width.
fn refused_width(ends: bool, widest: u32, own: u32) -> u32
    ensures { result ≡ cond ends widest own }
{
    if ends { widest } else { own }
}

// The response-time bound of each place, where the table passes the test: every job ends within that many ticks of its release. Zeros past the count.
pub fn test(table: Loaded) -> Option<[u32; MOST_TASKS]>
    requires { Fit table }
    ensures { TestedOf (loaded_table table) (tested_in result) }
{
    let open = cores::unfenced_count(table.cores, table.fence);
    let ends_choosing = model::ends_choosing(table.rule);
    let mut bounds = [0u32; MOST_TASKS];
    let mut widest: u32 = 0;
    for place in 0..table.count {
        let task = table.tasks[place];
        let own = task.width.max(task.second);
        widest = widest.max(own);
        let refused = refused_width(ends_choosing, widest, own);
        let need = need_of(open, refused);
        let search = Search {
            table,
            ends: bounds,
            place,
            wanted: need,
        };
        let bound = search.bound();
        if task.deadline < bound {
            return None;
        }
        bounds[place] = bound;
    }
    Some(bounds)
}

// The test of the table in these words, or the first of the table's numbers that applies.
pub fn response_bounds(words: &[u32]) -> Result<Option<[u32; MOST_TASKS]>, Refusal>
    ensures { BoundsOf words.now (answered result) }
{
    let fitting = Fitting::load(words)?;
    Ok(test(fitting.loaded))
}
