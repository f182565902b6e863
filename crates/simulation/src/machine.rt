// The machine that runs a table at full length, and its state before tick 0.
ghost use Rattle.std.specs.Prelude.{◌≡◌, length};
ghost use Rattle.simulation.specs.TickState.{tick_state_of, initial_tick_state};
ghost use Rattle.simulation.specs.Places.{triple};

use crate::TRIPLE;
use table::Loaded;

// The state of a run before a tick: the next event, before which nothing is due; the set of claimants; the claimants for which the kept choice was made,
// and those that are granted cores by it; of the places with two widths, those that are at their second.
// Events and ticks have their own: the due places are of events alone, and the two states take them apart.
#[derive(Clone, Copy)]
pub struct Registers {
    pub tick: u32,
    pub event: u32,
    pub claiming: u32,
    pub chosen: u32,
    pub granted: u32,
    pub even: u32,
}

// The machine, by ticks or by events: its registers, and the three numbers of each place.
// One array for three numbers of each place, for speed: with 32 structs of three numbers the heavy tables of
// bench/tables.py took 1.17 times as long by ticks and 1.32 times by events (the same text compiled as Rust,
// alternating in one run, processor time, least of three).
#[derive(Clone, Copy)]
pub struct Machine<R> {
    pub registers: R,
    pub places: [u32; TRIPLE],
}

// The machine before tick 0: no place claims or is granted cores, and each task waits for its first release, which turns it to its first width.
// The events' start is made of this one, and adds the two registers that differ.
pub fn start(table: Loaded) -> Machine<Registers>
    ensures { (tick_state_of result.registers result.places ≡ initial_tick_state table) × (length result.places ≡ triple) }
{
    let mut places = [0u32; TRIPLE];
    for (i, task) in table.tasks.iter().enumerate() {
        places[crate::EVENT + i] = task.offset;
        places[crate::NEXT + i] = task.offset;
    }
    let registers = Registers {
        tick: 0,
        event: 0,
        claiming: 0,
        chosen: 0,
        granted: 0,
        even: crate::columns::paired_in(table.tasks),
    };
    Machine { registers, places }
}
