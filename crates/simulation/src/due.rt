// The places whose event a tick is, and the earliest event.
ghost use Rattle.std.specs.Prelude.{◌≡◌, true, cond, ℕ, ◌+◌, ◌<◌, ◌≤◌, ◌^◌, eqb, get_or};
ghost use Rattle.model.specs.Search.{bit};
ghost use Rattle.model.specs.Sizes.{most_tasks};
ghost use Rattle.simulation.specs.Places.{segment, second, third};
ghost use Rattle.simulation.specs.Machine.{machine_of};
ghost use Rattle.simulation.specs.EventState.{due_at, earliest_of};
ghost use Rattle.simulation.specs.Jump.{handled, handled_all};

use crate::{EVENT, NEXT, TRIPLE};
use model::sets::{Members, places_where};

// The set of those of the first `count` places whose event is this tick.
// A count beside the places that are lent, as in `earliest`.
pub(crate) fn due_places(tick: u32, count: usize, places: &[u32; TRIPLE]) -> u32
    requires { count ≤ most_tasks }
    ensures { result ≡ due_at tick count (segment second places.now) }
{
    places_where(count, |i| places[EVENT + i] == tick)
}

// The same where the next event, the earliest event, is known: before it no place is due.
// Not one with `due_places`, which the start calls before an event is known: one test before a call of it.
pub(crate) fn due_by(tick: u32, event: u32, count: usize, places: &[u32; TRIPLE]) -> u32
    requires { count ≤ most_tasks }
    ensures { result ≡ cond (eqb tick event) (due_at tick count (segment second places.now)) 0 }
{
    if tick == event {
        return due_places(tick, count, places);
    }
    0
}

// The earliest event of the first `count` places.
// The count stands beside the places: their array has three numbers of each, and no slice of it is the first `count`
// places.
pub(crate) fn earliest(count: usize, places: &[u32; TRIPLE]) -> u32
    requires { count ≤ most_tasks }
    ensures { result ≡ earliest_of count (segment second places.now) }
{
    let mut event = places[EVENT];
    for i in 0..count {
        event = event.min(places[EVENT + i]);
    }
    event
}

// Handles a place at its event, this tick, where no tick is left, and returns the set of claimants: its next job is released, or it waits for its next release.
// It asks what `crate::release` asks, which is public.
pub(crate) fn handle_event(
    place: usize,
    tick: u32,
    claiming: u32,
    times: &[u32; TRIPLE],
    places: &mut [u32; TRIPLE],
) -> u32
    requires { (place < most_tasks) × (tick + get_or (segment second times.now) place 0 < 2 ^ 32) × (tick + get_or (segment third times.now) place 0 < 2 ^ 32) }
    ensures { machine_of places.new result ≡ handled place tick (get_or (segment 0 times.now) place 0)
        (get_or (segment second times.now) place 0) (get_or (segment third times.now) place 0) (machine_of places.old claiming) }
{
    if places[NEXT + place] == tick {
        return crate::release(place, tick, claiming, times, places);
    }
    places[EVENT + place] = places[NEXT + place];
    claiming
}

// The same at every due place.
pub(crate) fn handle_due(
    tick: u32,
    due: u32,
    claiming: u32,
    times: &[u32; TRIPLE],
    places: &mut [u32; TRIPLE],
) -> u32
    requires { (p : ℕ) → bit due p ≡ true → (tick + get_or (segment second times.now) p 0 < 2 ^ 32) × (tick + get_or (segment third times.now) p 0 < 2 ^ 32) }
    ensures { machine_of places.new result ≡ handled_all tick (bit due) (segment 0 times.now)
        (segment second times.now) (segment third times.now) (machine_of places.old claiming) }
{
    let mut set = claiming;
    for place in Members::from(due) {
        set = handle_event(place, tick, set, times, places);
    }
    set
}
