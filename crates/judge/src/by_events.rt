// The full-length run of a table that passed, from event to event, up to its first missed deadline.
ghost use Rattle.std.specs.Prelude.{◌+◌, ◌≤◌};
ghost use Rattle.table.specs.declared.Loaded.{Loaded};
ghost use Rattle.table.specs.Fit.{Fit};
ghost use Rattle.simulation.specs.TickState.{numbers_of};
ghost use Rattle.simulation.specs.EventState.{event_state_of};
ghost use Rattle.judge.specs.FirstMiss.{MissedByJumps, miss_of};
ghost use Rattle.judge.specs.Judged.{Judged};
ghost use Rattle.judge.specs.RunOn.{JumpsBegin, JumpsRun};

use crate::{Miss, Ran, Verdict};
use model::sets::Members;
use simulation::TRIPLE;
use simulation::columns::Columns;
use simulation::events::Registers;
use table::Loaded;

// The full-length run from an event on, to the first event at tick `end` or later, or to the first deadline that it misses before `end`. All that goes from
// event to event in a program goes through this loop: it is the only one that calls `jump`, which is then compiled into it.
// Not one function with that of ticks: by_ticks.rt says why.
// It asks for some table whose run reaches the state: a struct with a ghost table would ask more of callers.
pub fn run_on(
    columns: &Columns,
    start: Registers,
    places: &mut [u32; TRIPLE],
    end: u32,
) -> Ran<Registers>
    requires { (t : Loaded) × JumpsBegin t (numbers_of columns.now) (event_state_of start places.old) end }
    ensures { JumpsRun (numbers_of columns.now) (event_state_of start places.old) end (miss_of result.missed) (event_state_of result.registers places.new) }
{
    let mut registers = start;
    'jumps: loop {
        if end <= registers.tick {
            break 'jumps Ran {
                registers,
                missed: None,
            };
        }
        for place in Members::from(registers.claiming & registers.due) {
            if 0 < places[place] {
                break 'jumps Ran {
                    registers,
                    missed: Some(Miss {
                        tick: registers.tick,
                        position: place as u32 + 1,
                    }),
                };
            }
        }
        registers = simulation::events::jump(columns, registers, places);
    }
}

// The first deadline that the full-length run misses before tick `end`, at equal ticks the first in priority.
// Four calls, of the events' own start and loop, which tests/outside/event-judge reads here.
// Table and end apart: the function is public, and `judge_by` takes it as it is.
pub fn first_miss(table: Loaded, end: u32) -> Option<Miss>
    requires { Fit table × (end ≤ table.horizon + 1) }
    ensures { MissedByJumps table end (miss_of result) }
{
    let columns = simulation::columns::columns_of(table);
    let machine = simulation::events::start(table);
    let mut places = machine.places;
    run_on(&columns, machine.registers, &mut places, end).missed
}

// The verdict on a table's words, by this way.
pub fn judge(words: &[u32]) -> Verdict
    ensures { Judged words.now result }
{
    crate::judge_by(first_miss, words)
}
