// What is late at a tick of the jumping run, and the response times of the jobs that end.
ghost use Rattle.std.specs.Prelude.{true, ◌≡◌, ℕ, ◌+◌, ◌≤◌, ◌<◌, ◌^◌, get_or};
ghost use Rattle.model.specs.Search.{bit};
ghost use Rattle.simulation.specs.Places.{segment, third};
ghost use Rattle.response_time.specs.Recording.{any_left, recorded};

use model::MOST_TASKS;
use model::sets::Members;
use simulation::{NEXT, PERIOD, TRIPLE};

// Whether some place of a set has ticks left.
pub(crate) fn any_left(set: u32, places: &[u32; TRIPLE]) -> bool
    ensures { result ≡ any_left set (segment 0 places.now) }
{
    for place in Members::from(set) {
        if 0 < places[place] {
            return true;
        }
    }
    false
}

// Records the response time of each place of a set, whose job ends at this tick, where it is longer than the recorded one.
pub(crate) fn record_ends(
    ended: u32,
    tick: u32,
    times: &[u32; TRIPLE],
    places: &[u32; TRIPLE],
    responses: &mut [u32; MOST_TASKS],
)
    requires { (p : ℕ) → bit ended p ≡ true → (tick + get_or (segment third times.now) p 0 < 2 ^ 32) × (get_or (segment third places.now) p 0 ≤ tick + get_or (segment third times.now) p 0) }
    ensures { responses.new ≡ recorded (bit ended) tick (segment third times.now) (segment third places.now) responses.old }
{
    for place in Members::from(ended) {
        let time = tick + times[PERIOD + place] - places[NEXT + place];
        responses[place] = responses[place].max(time);
    }
}
