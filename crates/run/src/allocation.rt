// The cores of a tick: the positions that are given some, those that borrow some, and the cores that the row shows of each.
ghost use Rattle.std.specs.Prelude.{◌≡◌, ◌≤◌, take};
ghost use Rattle.model.specs.Sizes.{most_tasks};
ghost use Rattle.model.specs.Task.{rule_of};
ghost use Rattle.cores.specs.Cores as listed;
ghost use Rattle.rule.specs.Widths.{widths_in};
ghost use Rattle.run.specs.Allocation.{AllocationOf};

use model::MOST_TASKS;

// Rule 4: a job that has ended lends the cores that are reserved for it.
// A number, since the rule of a run is any number.
const LENDING: u32 = 4;

// The set of the positions that are given cores in a tick, and of those that borrow some, bit 0 for position 1; and of each position the set of cores
// that the row shows.
// Sets by place, since `rule` gives and takes each list whole.
#[derive(Clone, Copy)]
pub struct Allocation {
    pub given: u32,
    pub lent: u32,
    pub sets: [u64; MOST_TASKS],
}

// The cores of the first `count` positions in a tick, from the sets of those that claim and of those that are Working. Those that claim are given
// theirs; then, under rule 4, those of them that are not Working lend, and those that are Working and have none borrow: lent cores show the borrower,
// and a holder keeps those that it has not lent.
// No plainer with an enum: the rule comes as the number that public functions take; it would be made for this test.
pub(crate) fn allocate(
    rule: u32,
    free: u64,
    claiming: u32,
    working: u32,
    even: u32,
    widths: &[u32; rule::PAIR],
    count: usize,
) -> Allocation
    requires { count ≤ most_tasks }
    ensures { AllocationOf (rule_of rule) (take count (widths_in even widths.now)) claiming working (listed.cores free) count result }
{
    let reserved = rule::grants(rule, free, claiming, even, widths, count);
    let given = rule::owners(&reserved);
    if rule == LENDING {
        let holders = claiming & (claiming ^ working);
        let seekers = working & (working ^ given);
        let borrowed = rule::lend(&reserved, holders, seekers, even, widths, count);
        let lent = rule::owners(&borrowed);
        let sets = rule::shown(&reserved, &borrowed, count);
        return Allocation { given, lent, sets };
    }
    Allocation {
        given,
        lent: 0,
        sets: reserved,
    }
}
