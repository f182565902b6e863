// The facts of a miss, counted in the full-length run.
ghost use Rattle.std.specs.Prelude.{◌≡◌, ℕ, suc, ◌≤◌, ◌<◌, ◌^◌, length, get_or};
ghost use Rattle.model.specs.Sizes.{most_tasks};
ghost use Rattle.model.specs.Verdict.{FirstMiss};
ghost use Rattle.table.specs.Fit.{loaded_table, Fit};
ghost use Rattle.sentence.specs.Facts.{facts_by};
ghost use Rattle.sentence.specs.Waiting.{facts_at};
ghost use Rattle.sentence.specs.Counting.{added, above};

use crate::Facts;
use model::MOST_TASKS;
use model::sets::{Members, has};
use table::Loaded;

// Adds one to the count of each place of a set.
fn add(granted: u32, ran: &mut [u64; MOST_TASKS])
    requires { (q : ℕ) → get_or ran.old q 0 < 2 ^ 32 }
    ensures { ran.new ≡ added granted ran.old }
{
    for place in Members::from(granted) {
        ran[place] += 1;
    }
}

// The facts of the first miss, of a place at a tick: the run up to that tick; from the late job's release on, each tick in which it is not granted cores
// is counted for the places that are.
pub fn count(table: Loaded, tick: u32, place: usize) -> Facts
    requires { Fit table × FirstMiss (loaded_table table) tick (suc place) × (tick ≤ table.horizon) }
    ensures { facts_by result ≡ facts_at (loaded_table table) tick place }
{
    let tasks = table.tasks;
    let late = tasks[place];
    let release = tick - late.deadline;
    let columns = simulation::columns::columns_of(table);
    let machine = simulation::machine::start(table);
    let mut registers = machine.registers;
    let mut places = machine.places;
    let mut ran = [0u64; MOST_TASKS];
    // no plainer as a `for`: the tick is a register of the run, and a step sets it
    while registers.tick < tick {
        let before = registers.tick;
        let on = judge::by_ticks::run_on(&columns, registers, &mut places, before + 1);
        registers = on.registers;
        if release <= before {
            let granted = registers.granted;
            if !has(granted, place) {
                add(granted, &mut ran);
            }
        }
    }
    let position = place as u32 + 1;
    let had = late.length - places[place];
    // a task has no part that is not above the late one
    ran[place..].fill(0);
    Facts {
        position,
        tick: tick as u64,
        had: had as u64,
        length: late.length as u64,
        ran,
    }
}
