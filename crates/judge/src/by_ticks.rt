// The full-length run of a table that passed, tick by tick, up to its first missed deadline.
ghost use Rattle.std.specs.Prelude.{◌+◌, ◌≤◌};
ghost use Rattle.table.specs.declared.Loaded.{Loaded};
ghost use Rattle.table.specs.Fit.{loaded_table, Fit};
ghost use Rattle.simulation.specs.TickState.{numbers_of, tick_state_of};
ghost use Rattle.judge.specs.FirstMiss.{MissedOf, miss_of};
ghost use Rattle.judge.specs.Judged.{Judged};
ghost use Rattle.judge.specs.RunOn.{TicksBegin, TicksRun};

use crate::{Miss, Ran, Verdict};
use model::sets::Members;
use simulation::TRIPLE;
use simulation::columns::Columns;
use simulation::machine::Registers;
use table::Loaded;

// The full-length run from a tick on, to tick `end` or to the first deadline that it misses before. All that goes tick by tick in a program goes through this
// loop: it is the only one that calls `step`, which is then compiled into it.
// Not one function with that of events: the end, the places asked, what is late and the step differ.
// docs/SCOPE.md names this labelled loop as a form, and tests/outside/event-judge reads the events' own loop.
// It asks for some table whose run reaches the state: a struct with a ghost table would ask more of callers.
pub fn run_on(
    columns: &Columns,
    start: Registers,
    places: &mut [u32; TRIPLE],
    end: u32,
) -> Ran<Registers>
    requires { (t : Loaded) × TicksBegin t (numbers_of columns.now) (tick_state_of start places.old) end }
    ensures { TicksRun (numbers_of columns.now) (tick_state_of start places.old) end (miss_of result.missed) (tick_state_of result.registers places.new) }
{
    let mut registers = start;
    'ticks: loop {
        if registers.tick == end {
            break 'ticks Ran {
                registers,
                missed: None,
            };
        }
        if registers.event <= registers.tick {
            for place in Members::from(registers.claiming) {
                if places[simulation::EVENT + place] == registers.tick {
                    break 'ticks Ran {
                        registers,
                        missed: Some(Miss {
                            tick: registers.tick,
                            position: place as u32 + 1,
                        }),
                    };
                }
            }
        }
        registers = simulation::ticks::step(columns, registers, places);
    }
}

// The first deadline that the full-length run misses before tick `end`, at equal ticks the first in priority.
// Four calls, of the ticks' own start and loop: a function for both ways would take both, and be longer.
// Table and end apart: the function is public, and `judge_by` takes it as it is.
pub fn first_miss(table: Loaded, end: u32) -> Option<Miss>
    requires { Fit table × (end ≤ table.horizon + 1) }
    ensures { MissedOf (loaded_table table) end (miss_of result) }
{
    let columns = simulation::columns::columns_of(table);
    let machine = simulation::machine::start(table);
    let mut places = machine.places;
    run_on(&columns, machine.registers, &mut places, end).missed
}

// The verdict on a table's words, by this way.
pub fn judge(words: &[u32]) -> Verdict
    ensures { Judged words.now result }
{
    crate::judge_by(first_miss, words)
}
