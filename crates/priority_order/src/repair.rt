// The order that follows one that misses: the late task goes to the place directly above the task that ran most while it waited.
ghost use Rattle.std.specs.Prelude.{Some, ◌≡◌};
ghost use Rattle.sentence.specs.Facts.{named};
ghost use Rattle.priority_order.specs.Orders.{OrderIn};
ghost use Rattle.priority_order.specs.Repair.{LateIn, blocking_in, choice_of, late_in, late_of, late_with, later_of, most_ran, next_order, position_in};

use crate::links::Order;
use crate::orders;
use judge::{Miss, Verdict};
use model::MOST_TASKS;

// An order, and its first miss where it has one.
// That the verdict says so (`LateIn`) is no ghost field: it is a fact of the table's words too.
#[derive(Clone, Copy)]
pub struct Late {
    pub missed: Option<Miss>,
    pub order: [u32; MOST_TASKS],
}

// An order by the verdict on it.
pub(crate) fn late_of(verdict: Verdict, order: [u32; MOST_TASKS]) -> Late
    ensures { late_in result ≡ late_of verdict order }
{
    match verdict {
        Verdict::Miss(tick, position) => Late {
            missed: Some(Miss { tick, position }),
            order,
        },
        Verdict::Firm(_, _) | Verdict::Full(_, _) | Verdict::Refused(_, _) => Late {
            missed: None,
            order,
        },
    }
}

// The one with the later first miss, the first of equal ones.
pub(crate) fn later(first: Late, other: Late) -> Late
    ensures { late_in result ≡ later_of (late_in first) (late_in other) }
{
    let Some(miss) = other.missed else {
        return first;
    };
    match first.missed {
        None => other,
        Some(kept) => { if kept.tick < miss.tick { other } else { first } }
    }
}

// The place with the largest count, at equal counts the highest; none where every count is 0.
fn most_ran(ran: [u64; MOST_TASKS]) -> Option<usize>
    ensures { position_in result ≡ most_ran (named ran) }
{
    let mut most: u64 = 0;
    let mut place = None;
    for (i, count) in ran.iter().enumerate() {
        if most < *count {
            most = *count;
            place = Some(i);
        }
    }
    place
}

// The place of the task that ran most while the late one waited; none where nobody ran.
fn blocking(order: Order, miss: Miss) -> Option<usize>
    requires { LateIn order.words.now (late_with (Some miss) order.places) }
    ensures { position_in result ≡ blocking_in order.entry.words.now (late_with (Some miss) order.entry.places) }
{
    let part = order.reordered();
    // no order that misses has words that are refused
    let table = table::load(&part[..order.words.len()]).ok()?;
    let facts = sentence::counting::count(table, miss.tick, miss.position as usize - 1);
    most_ran(facts.ran)
}

// The order that follows one that misses, or none.
pub(crate) fn next_order(words: &[u32], late: Late, count: usize) -> Option<[u32; MOST_TASKS]>
    requires { OrderIn words.now count late.order × LateIn words.now (late_in late) }
    ensures { choice_of result ≡ next_order words.now late.order }
{
    let miss = late.missed?;
    let places = late.order;
    let order = Order {
        words,
        count,
        places,
    };
    let above = blocking(order, miss)?;
    let mut next = places;
    orders::move_up(&mut next, above, miss.position as usize - 1);
    Some(next)
}
