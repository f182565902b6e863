// The machine tick by tick: the due events, the choice, the work.
ghost use Rattle.std.specs.Prelude.{◌≡◌, ℕ, ◌+◌, ◌≤◌, ◌<◌, ◌^◌, get_or};
ghost use Rattle.model.specs.Search.{bit};
ghost use Rattle.model.specs.Sizes.{most_tasks};
ghost use Rattle.simulation.specs.Places.{segment, second, third};
ghost use Rattle.simulation.specs.Machine.{machine_of, DueEvents, GrantedOwed, worked_tick};
ghost use Rattle.simulation.specs.TickState.{numbers_of, tick_state_of, Steppable, next_tick_state};

use crate::columns::Columns;
use crate::machine::Registers;
use crate::{EVENT, NEXT, TRIPLE};
use model::sets::Members;

// The set of claimants after the due events of a tick, and the earliest event to come.
#[derive(Clone, Copy)]
pub struct Due {
    pub claiming: u32,
    pub event: u32,
}

// Releases a job at each of the first `count` places whose event is this tick, for runs in which no job is late.
// What stays below 2^32 is a clause: the function is public, and a type would ask more.
// Registers by value and the places lent, as in `crate::release`; a count beside them, as in `earliest`.
pub fn release_due(
    tick: u32,
    count: usize,
    claiming: u32,
    times: &[u32; TRIPLE],
    places: &mut [u32; TRIPLE],
) -> Due
    requires { (count ≤ most_tasks) × ((p : ℕ) → p < count → (tick + get_or (segment second times.now) p 0 < 2 ^ 32) × (tick + get_or (segment third times.now) p 0 < 2 ^ 32)) }
    ensures { DueEvents tick count (segment 0 times.now) (segment second times.now)
        (segment third times.now) (machine_of places.old claiming) (machine_of places.new result.claiming) result.event }
{
    let mut set = claiming;
    let mut event: u32 = u32::MAX;
    for i in 0..count {
        if places[EVENT + i] == tick {
            set = crate::release(i, tick, set, times, places);
        }
        event = event.min(places[EVENT + i]);
    }
    Due {
        claiming: set,
        event,
    }
}

// A tick of the places that are granted cores; returns the set of those that still claim after it.
// Not one with `events::elapse`: at an end this moves the event too.
// Claimants by value beside the places that are lent, for speed (docs/DECISIONS.md, 'The machine').
// In the clause they are one value (`machine_of`).
pub fn work(granted: u32, claiming: u32, places: &mut [u32; TRIPLE]) -> u32
    requires { GrantedOwed (bit granted) (machine_of places.old claiming) }
    ensures { machine_of places.new result ≡ worked_tick (bit granted) (machine_of places.old claiming) }
{
    let mut set = claiming;
    for place in Members::from(granted) {
        let ticks = places[place] - 1;
        places[place] = ticks;
        if ticks == 0 {
            set -= 1u32 << place;
            places[EVENT + place] = places[NEXT + place];
        }
    }
    set
}

// One tick, for runs in which no job is late: the due events where the next event has come, which turn a released place to its other width; the choice where
// the claimants or their widths have changed; the work.
// Not one with `events::jump`, which passes up to the next event and keeps the due places. Only the choice is alike.
pub fn step(columns: &Columns, registers: Registers, places: &mut [u32; TRIPLE]) -> Registers
    requires { Steppable (numbers_of columns.now) (tick_state_of registers places.old) }
    ensures { tick_state_of result places.new ≡ next_tick_state (numbers_of columns.now) (tick_state_of registers places.old) }
{
    let setting = columns.setting;
    let tick = registers.tick;
    let mut claiming = registers.claiming;
    let mut event = registers.event;
    let mut even = registers.even;
    if event <= tick {
        let due = release_due(tick, setting.count, claiming, &columns.times, places);
        even ^= (due.claiming ^ claiming) & setting.paired;
        claiming = due.claiming;
        event = due.event;
    }
    let mut chosen = registers.chosen;
    let mut granted = registers.granted;
    if (claiming != chosen) | (even != registers.even) {
        let free = cores::unfenced_cores(setting.cores, setting.fence);
        granted = rule::choose(setting.rule, free, claiming, even, &columns.widths);
        chosen = claiming;
    }
    let after = work(granted, claiming, places);
    Registers {
        tick: tick + 1,
        event,
        claiming: after,
        chosen,
        granted,
        even,
    }
}
