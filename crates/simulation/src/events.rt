// The machine from event to event: its state at an event, and a jump to the next. The event of a place is its next release or deadline, whichever is first,
// and the deadline counts whether the job has ended or not.
ghost use Rattle.std.specs.Prelude.{◌≡◌};
ghost use Rattle.model.specs.Search.{bit};
ghost use Rattle.model.specs.Sizes.{most_tasks};
ghost use Rattle.table.specs.Fit.{Fit};
ghost use Rattle.table.specs.declared.Loaded.{Loaded};
ghost use Rattle.simulation.specs.Places.{segment};
ghost use Rattle.simulation.specs.Machine.{machine_of};
ghost use Rattle.simulation.specs.TickState.{numbers_of};
ghost use Rattle.simulation.specs.EventState.{event_state_of, initial_event_state};
ghost use Rattle.simulation.specs.Jump.{least_left, GrantedOwe, elapsed, JumpStarts, JumpOf};

use crate::TRIPLE;
use crate::columns::Columns;
use crate::machine::Machine;
use model::sets::Members;
use table::Loaded;

// The state of a run: the next event, its earliest event; the set of the places whose event this tick is; the set of claimants; the claimants for which
// the kept choice was made, and those that are granted cores by it; of the places with two widths, those that are at their second.
// Events and ticks have their own: the due places are of events alone, and the two states take them apart.
#[derive(Clone, Copy)]
pub struct Registers {
    pub tick: u32,
    pub event: u32,
    pub due: u32,
    pub claiming: u32,
    pub chosen: u32,
    pub granted: u32,
    pub even: u32,
}

// The run before tick 0: no place claims or is granted cores, and each task waits for its first release, which turns it to its first width.
// Made of the ticks' start: only the registers of the events are added.
pub fn start(table: Loaded) -> Machine<Registers>
    requires { Fit table }
    ensures { event_state_of result.registers result.places ≡ initial_event_state table }
{
    let machine = crate::machine::start(table);
    let even = machine.registers.even;
    let places = machine.places;
    let event = crate::due::earliest(table.count, &places);
    let due = crate::due::due_places(0, table.count, &places);
    let registers = Registers {
        tick: 0,
        event,
        due,
        claiming: 0,
        chosen: 0,
        granted: 0,
        even,
    };
    Machine { registers, places }
}

// The least of `most` and of the ticks left of the granted places.
fn shortest(granted: u32, most: u32, places: &[u32; TRIPLE]) -> u32
    ensures { result ≡ least_left most_tasks (bit granted) most (segment 0 places.now) }
{
    let mut ticks = most;
    for place in Members::from(granted) {
        ticks = ticks.min(places[place]);
    }
    ticks
}

// This number of ticks of the granted places; returns the set of those that still claim after them.
// Claimants by value beside the places that are lent, for speed (docs/DECISIONS.md, 'The machine').
// In the clause they are one value (`machine_of`).
// Not one with `ticks::work`, which at an end moves the event too.
fn elapse(ticks: u32, granted: u32, claiming: u32, places: &mut [u32; TRIPLE]) -> u32
    requires { GrantedOwe ticks (bit granted) (machine_of places.old claiming) }
    ensures { machine_of places.new result ≡ elapsed ticks (bit granted) (machine_of places.old claiming) }
{
    let mut set = claiming;
    for place in Members::from(granted) {
        let more = places[place] - ticks;
        places[place] = more;
        if more == 0 {
            set -= 1u32 << place;
        }
    }
    set
}

// A jump from a tick at which no job is late to the least event after it: the due places are handled, and a released place turns to its other width; the
// choice is made where the claimants or their widths have changed; the ticks up to the next event or to the first end of a job that has cores pass.
// Not one with `ticks::step`: a jump passes up to the next event and keeps the due places. Only the choice is alike.
pub fn jump(columns: &Columns, registers: Registers, places: &mut [u32; TRIPLE]) -> Registers
    requires { (t : Loaded) × JumpStarts t (numbers_of columns.now) (event_state_of registers places.old) }
    ensures { JumpOf (numbers_of columns.now) (event_state_of registers places.old) (event_state_of result places.new) }
{
    let setting = columns.setting;
    let tick = registers.tick;
    let mut claiming = registers.claiming;
    let mut event = registers.event;
    let mut even = registers.even;
    if 0 < registers.due {
        claiming = crate::due::handle_due(tick, registers.due, claiming, &columns.times, places);
        event = crate::due::earliest(setting.count, places);
        even ^= (claiming ^ registers.claiming) & setting.paired;
    }
    let mut chosen = registers.chosen;
    let mut granted = registers.granted;
    if (claiming != chosen) | (even != registers.even) {
        let free = cores::unfenced_cores(setting.cores, setting.fence);
        granted = rule::choose(setting.rule, free, claiming, even, &columns.widths);
        chosen = claiming;
    }
    let ticks = shortest(granted, event - tick, places);
    let after = elapse(ticks, granted, claiming, places);
    let landed = tick + ticks;
    Registers {
        tick: landed,
        event,
        due: crate::due::due_by(landed, event, setting.count, places),
        claiming: after,
        chosen,
        granted,
        even,
    }
}
