// An order of priorities under which a table is accepted: five sorted orders are tried, then the one with the latest first miss is repaired.
#![tactic(auto)]

ghost use Rattle.std.specs.Prelude.{◌≡◌, ◌<◌, ◌+◌};
ghost use Rattle.table.specs.Load.{LoadedAs};
ghost use Rattle.table.specs.Numbers.{NoneApplies};
ghost use Rattle.priority_order.specs.Answer.{AssignedBy, OrderOf, answer_in, answered, firm_in, positions_of};
ghost use Rattle.priority_order.specs.Orders.{OrderIn};
ghost use Rattle.priority_order.specs.Repair.{LateIn, late_in, repairs};
ghost use Rattle.priority_order.specs.Tried.{tried_orders};

use judge::Verdict;
use links::Order;
use model::{MOST_TASKS, Refusal};
use repair::Late;
use table::Loaded;

mod orders; // orders.rt: an order of 32 places, and a task that moves up in it
mod sorting; // sorting.rt: the five sorted orders
mod links; // links.rt: the table in an order: its words, their verdict, and the positions
mod repair; // repair.rt: the order that follows one that misses

// The most judgings where nothing else is asked. For callers of `order`: no code here uses it.
pub const JUDGINGS: u32 = 200;

// The number of sorted orders.
const SORTED: u32 = 5;

// How an order fits: the verdict on the table in it, with S and P.
#[derive(Clone, Copy)]
pub enum Fit {
    Firm(u32, u32),
    Full(u32, u32),
}

// An order that fits: positions of the given table, highest priority first, and zeros past the count.
#[derive(Clone, Copy)]
pub struct Assignment {
    pub fit: Fit,
    pub order: [u32; MOST_TASKS],
}

// Why no order is given: none of this number of orders fits, or the table is refused.
#[derive(Clone, Copy)]
pub enum NoOrder {
    Tried(u32),
    Refused(Refusal),
}

impl From<Refusal> for NoOrder {
    ghost use Rattle.priority_order.specs.declared.NoOrder.TheVariants.{Refused};

    ghost from_gives = { λ refusal none. none ≡ Refused refusal };

    fn from(refusal: Refusal) -> NoOrder {
        NoOrder::Refused(refusal)
    }
}

// The assignment by an order whose verdict is Firm or Full.
fn assigned(verdict: Verdict, order: Order) -> Option<Assignment>
    ensures { AssignedBy verdict (positions_of order.entry.count order.entry.places) result }
{
    let fit = match verdict {
        Verdict::Firm(start, period) => Fit::Firm(start, period),
        Verdict::Full(start, period) => Fit::Full(start, period),
        Verdict::Miss(_, _) | Verdict::Refused(_, _) => return None,
    };
    let order = order.positions();
    Some(Assignment { fit, order })
}

// An assignment that is Firm.
fn firm(found: Option<Assignment>) -> Option<Assignment>
    ensures { result ≡ firm_in found }
{
    let assignment = found?;
    match assignment.fit {
        Fit::Firm(_, _) => found,
        Fit::Full(_, _) => None,
    }
}

// Repair of an order that misses, at most `most` judgings, after a number of others.
fn repaired(
    words: &[u32],
    count: usize,
    start: Late,
    tried: u32,
    most: u32,
) -> Result<Assignment, NoOrder>
    requires { OrderIn words.now count start.order × LateIn words.now (late_in start) × (tried + most < 4294967296) }
    ensures { answered result ≡ answer_in words.now tried (repairs words.now most start.order 1 1 start.order) }
{
    let mut late = start;
    let mut kept = start.order;
    let mut power: u64 = 1;
    for made in 0..most {
        let Some(order) = repair::next_order(words, late, count) else {
            return Err(NoOrder::Tried(tried + made));
        };
        if order == kept {
            return Err(NoOrder::Tried(tried + made));
        }
        let in_order = Order {
            words,
            count,
            places: order,
        };
        let verdict = in_order.verdict();
        if let Some(found) = assigned(verdict, in_order) {
            return Ok(found);
        }
        // order number 1, 2, 4, 8 .. is kept
        if u64::from(made) + 1 == power {
            kept = order;
            power *= 2;
        }
        late = repair::late_of(verdict, order);
    }
    Err(NoOrder::Tried(tried + most))
}

// The five in turn, and then repair.
fn search(words: &[u32], table: Loaded, judgings: u32) -> Result<Assignment, NoOrder>
    requires { NoneApplies words.now × LoadedAs words.now table }
    ensures { answered result ≡ answer_in words.now 0 (tried_orders words.now judgings) }
{
    let count = table.count;
    let mut accepted: Option<Assignment> = None;
    let mut late = Late {
        missed: None,
        order: orders::own(),
    };
    let first = judgings.min(SORTED);
    for number in 0..first {
        let order = sorting::sorted(table, number);
        let in_order = Order {
            words,
            count,
            places: order,
        };
        let verdict = in_order.verdict();
        let found = assigned(verdict, in_order);
        if let Some(best) = firm(found) {
            return Ok(best);
        }
        accepted = accepted.or(found);
        late = repair::later(late, repair::late_of(verdict, order));
    }
    if let Some(found) = accepted {
        return Ok(found);
    }
    if late.missed.is_none() {
        return Err(NoOrder::Tried(first));
    }
    repaired(words, count, late, first, judgings - first)
}

// An order of its tasks under which the table in these words is accepted, found in at most this number of judgings.
pub fn order(words: &[u32], judgings: u32) -> Result<Assignment, NoOrder>
    ensures { OrderOf words.now judgings (answered result) }
{
    let table = table::load(words)?;
    search(words, table, judgings)
}
