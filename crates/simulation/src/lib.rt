// The full-length run as a fast machine: one array with three numbers for each of 32 places, lent, and registers by value.
// It is stepped tick by tick (`ticks`) or from event to event (`events`).
#![tactic(auto)]

ghost use Rattle.std.specs.Prelude.{◌≡◌, ◌+◌, ◌<◌, ◌^◌, get_or};
ghost use Rattle.model.specs.Sizes.{most_tasks};
ghost use Rattle.simulation.specs.Places.{segment, second, third};
ghost use Rattle.simulation.specs.Machine.{machine_of, with_release};

use model::MOST_TASKS;

pub mod columns; // columns.rt: the table's numbers, as the machine is stepped with them
mod due; // due.rt: the places whose event a tick is
pub mod events; // events.rt: from event to event
pub mod machine; // machine.rt: the machine, and how it starts
pub mod ticks; // ticks.rt: tick by tick

// The places' array has the ticks left of each place first, then its next event, then its next release.
// Names of two arrays, equal in number to those of times: the name says which array is read.
pub const EVENT: usize = MOST_TASKS;

pub const NEXT: usize = 2 * MOST_TASKS;

// The array of times has the length of each place first, then its deadline, then its period.
pub const DEADLINE: usize = MOST_TASKS;

pub const PERIOD: usize = 2 * MOST_TASKS;

// The length of both arrays.
pub const TRIPLE: usize = 3 * MOST_TASKS;

// Releases a job of a place at this tick, and returns the set of claimants with the place in it.
// What stays below 2^32 is a clause: the function is public, and a type would ask more.
// Registers by value and one array lent, for speed: a whole machine by value took 2.6 to 7.4 times as long
// (docs/DECISIONS.md, 'The machine').
pub fn release(
    place: usize,
    tick: u32,
    claiming: u32,
    times: &[u32; TRIPLE],
    places: &mut [u32; TRIPLE],
) -> u32
    requires { (place < most_tasks) × (tick + get_or (segment second times.now) place 0 < 2 ^ 32) × (tick + get_or (segment third times.now) place 0 < 2 ^ 32) }
    ensures { machine_of places.new result ≡ with_release place tick (get_or (segment 0 times.now) place 0)
        (get_or (segment second times.now) place 0) (get_or (segment third times.now) place 0) (machine_of places.old claiming) }
{
    let deadline = times[DEADLINE + place];
    let period = times[PERIOD + place];
    places[place] = times[place];
    places[EVENT + place] = tick + deadline;
    places[NEXT + place] = tick + period;
    claiming | (1u32 << place)
}
