// Sets of places as numbers: a place added, and whether a set contains a place past the count.
ghost use Rattle.std.specs.Prelude.{◌≡◌, ◌||◌, ◌&&◌, ℕ, ◌<◌, eqb};
ghost use Rattle.model.specs.Search.{bit};
ghost use Rattle.model.specs.Sizes.{most_tasks};
ghost use Rattle.run.specs.Numbers.{past_count};

use model::MOST_TASKS;

// The set with a place added where `on` is true.
pub(crate) fn with(set: u32, place: u32, on: bool) -> u32
    requires { place < most_tasks }
    ensures { (p : ℕ) → bit result p ≡ bit set p || (on && eqb p place) }
{
    if on { set | (1u32 << place) } else { set }
}

// Whether a set contains a place at or past the count.
// The two cases are plainer than `checked_shr` and a closure.
pub(crate) fn past(set: u32, count: usize) -> bool
    ensures { result ≡ past_count count set }
{
    if count < MOST_TASKS {
        0 < (set >> (count as u32))
    } else {
        false
    }
}
