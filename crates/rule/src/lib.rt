// The tick rule: the claimants that are given cores in a tick, their cores, what is lent of them, and the row that shows it.
// A rule is a number here, since each clause speaks of `rule_of` of any number. An enum of the rules would ask more of callers.
#![tactic(auto)]

ghost use Rattle.std.specs.Prelude.{◌≡◌, ◌&&◌, map, ◌++◌, ℕ, ◌+◌, ◌-◌, ◌≤◌, ◌<◌, length, ltb, get_or, take, replicate};
ghost use Rattle.std.specs.Int.Bits.{bit_or};
ghost use Rattle.model.specs.Search.{bit};
ghost use Rattle.model.specs.Task.{rule_of};
ghost use Rattle.model.specs.Fence.{unfenced};
ghost use Rattle.model.specs.Grants.{claimants, grants, some};
ghost use Rattle.model.specs.Lending.{among};
ghost use Rattle.model.specs.Row.{row};
ghost use Rattle.model.specs.Sizes.{most_cores, most_tasks};
ghost use Rattle.cores.specs.Cores.{cores};
ghost use Rattle.cores.specs.Cores as listed;
ghost use Rattle.rule.specs.Granted.{selection, GrantedAs, granted};
ghost use Rattle.rule.specs.Lent.{LentAs, NotBoth, ShownAs, Showable};
ghost use Rattle.rule.specs.Marked.{marked, shown_bytes};
ghost use Rattle.rule.specs.Widths.{widths_in};

use model::sets::{Members, has, places_where};
use model::{FENCED, MOST_TASKS, ROW};

// The number of widths: each place has two, the first of every place before the second of any.
// One flat array and no pairs: what may not change, `widths_in` (rule/specs/Widths), on which clauses of rule, run,
// simulation and printer stand, is of one list.
pub const PAIR: usize = 2 * MOST_TASKS;

// Rule 1: a claimant that doesn't fit is skipped.
// A number, since `grants` takes any.
const GREEDY: u32 = 1;

// The tick rule's answer to a claimant: it takes its cores, it is skipped, or it ends the tick's choosing.
#[derive(Clone, Copy)]
pub enum Selection {
    Takes,
    Passed,
    Ends,
}

// The tick rule, for one claimant on this number of free cores: a width that fits takes its cores.
// The rule is any number, since the clause answers for each (`rule_of`). Of the four one ends the choosing, so that one
// test suffices.
pub fn select(rule: u32, free: u32, width: u32) -> Selection
    ensures { result ≡ selection (rule_of rule) free width }
{
    if width <= free {
        return Selection::Takes;
    }
    if model::ends_choosing(rule) {
        return Selection::Ends;
    }
    Selection::Passed
}

// The width of a place in a tick: its second where the place is in the set, else its first.
// A place is a number below 32, as the digits of a set give it: a type of places would be made anew at each call.
pub fn width_at(even: u32, widths: &[u32; PAIR], place: u32) -> u32
    requires { place < most_tasks }
    ensures { result ≡ get_or (widths_in even widths.now) place 0 }
{
    let shifted = (even >> place) % 2;
    widths[MOST_TASKS * shifted as usize + place as usize]
}

// The set of positions that are given cores, of the set that claims; bit 0 is for position 1. The free cores are counted once.
// `even` is of the tick, and the widths are of the table: a struct of both would be made at each call, here and in
// `grants`, `show` and `lend`.
// The rule is any number (`rule_of`).
pub fn choose(rule: u32, free: u64, claims: u32, even: u32, widths: &[u32; PAIR]) -> u32
    ensures { (p : ℕ) → bit result p ≡ granted (rule_of rule) (claimants (widths_in even widths.now) (bit claims)) (cores free) p }
{
    let mut chosen: u32 = 0;
    let mut left = u64::count_ones(free);
    // By hand, for speed: with a `for` over `Members` the verdict on heavy tables that go tick by tick takes 15 to 20 percent longer.
    let mut rest = claims;
    while 0 < rest {
        let p = u32::trailing_zeros(rest);
        rest &= rest - 1;
        let width = width_at(even, widths, p);
        match select(rule, left, width) {
            Selection::Takes => {
                left -= width;
                if 0 < width {
                    chosen |= 1u32 << p;
                }
            }
            Selection::Passed => {}
            Selection::Ends => {
                return chosen;
            }
        }
    }
    chosen
}

// The set of cores of each of the first `count` positions, 0 where it is given none; `claims` is the set that claims, bit 0 for position 1.
// Not one with `choose`, which keeps a count of the free cores in place of their set.
// The rule is any number (`rule_of`).
// The count stands beside the widths: a slice of the first `count` would cut between their two halves.
pub fn grants(
    rule: u32,
    free: u64,
    claims: u32,
    even: u32,
    widths: &[u32; PAIR],
    count: usize,
) -> [u64; MOST_TASKS]
    ensures { GrantedAs (rule_of rule) (claimants (take count (widths_in even widths.now)) (bit claims)) count free result }
{
    let mut sets = [0u64; MOST_TASKS];
    let mut set = free;
    for place in Members::from(claims) {
        if place < count {
            let width = width_at(even, widths, place as u32);
            match select(rule, u64::count_ones(set), width) {
                Selection::Takes => {
                    let taken = cores::lowest(set, width);
                    sets[place] = taken;
                    set -= taken;
                }
                Selection::Passed => {}
                Selection::Ends => {
                    return sets;
                }
            }
        }
    }
    sets
}

// Marks each core of a set in the row.
pub fn mark(row: &mut [u8; ROW], set: u64, mark: u8)
    ensures { row.new ≡ marked row.old mark (cores set) }
{
    for core in Members::from(set) {
        row[core] = mark;
    }
}

// The row with each position on its cores; the first set is that of position `first`.
pub fn row_of(start: [u8; ROW], first: u8, sets: &[u64]) -> [u8; ROW]
    requires { first + length sets.now ≤ 256 }
    ensures { result ≡ shown_bytes start first (map cores sets.now) }
{
    let mut out = start;
    for (i, set) in sets.iter().enumerate() {
        mark(&mut out, *set, (first as usize + i) as u8);
    }
    out
}

// The row that shows these sets of cores, one of each position: core 0 first, the position or 0, 255 on a fenced core; bytes past the core count are 0.
// Cores and fence are named apart by the pages, as in `cores::unfenced_cores` and `cores::unfenced_count`.
pub fn row_in(cores: u32, fence: u64, sets: &[u64]) -> [u8; ROW]
    requires fact_1 { (cores ≤ most_cores) × (length sets.now ≤ most_tasks) }
    requires fact_2 { Showable fence cores (map listed.cores sets.now) }
    ensures { result ≡ row fence cores (map listed.cores sets.now) ++ replicate (most_cores - cores) 0 }
{
    let free = cores::unfenced_cores(cores, fence);
    let fenced = cores::difference(cores::first_cores(cores), free);
    let mut start = [0u8; ROW];
    mark(&mut start, fenced, FENCED);
    row_of(start, 1, sets)
}

// The row of a tick in which the places of a set claim the cores outside the fence.
// Rule, cores and fence are fields of `Loaded` and of `Run`: a struct of the three would be made at each call. Both
// callers know that there are at most 64 cores.
// The rule is any number (`rule_of`).
pub fn show(
    rule: u32,
    cores: u32,
    fence: u64,
    claiming: u32,
    even: u32,
    widths: &[u32; PAIR],
    count: usize,
) -> [u8; ROW]
    requires { (cores ≤ most_cores) × (count ≤ most_tasks) }
    ensures { result ≡ row fence cores (grants (rule_of rule) (claimants (take count (widths_in even widths.now)) (bit claiming)) (unfenced fence cores)) ++ replicate (most_cores - cores) 0 }
{
    let free = cores::unfenced_cores(cores, fence);
    let sets = grants(rule, free, claiming, even, widths, count);
    row_in(cores, fence, &sets[..count])
}

// Whether a set has a core.
fn any(set: u64) -> bool
    ensures { result ≡ some (cores set) }
{
    0 < set
}

// The set of positions that have a core in their set, bit 0 for position 1.
pub fn owners(sets: &[u64; MOST_TASKS]) -> u32
    ensures { (p : ℕ) → bit result p ≡ ltb p most_tasks && some (cores (get_or sets.now p 0)) }
{
    places_where(MOST_TASKS, |i| any(sets[i]))
}

// Adds to the set of each position that of another list.
// By an index: of the values after a `zip` with `iter_mut` Rattle knows nothing.
fn merge(sets: &mut [u64; MOST_TASKS], more: &[u64; MOST_TASKS])
    ensures { (p : ℕ) → p < most_tasks → get_or sets.new p 0 ≡ bit_or (get_or sets.old p 0) (get_or more.now p 0) }
{
    for (i, set) in sets.iter_mut().enumerate() {
        *set |= more[i];
    }
}

// The set of cores that each of the first `count` positions borrows, 0 where none. Of the sets reserved for them each holder, by priority, lends its
// own: the seekers below it that have not yet borrowed are the claimants, and they are granted cores as under rule 1.
pub fn lend(
    reserved: &[u64; MOST_TASKS],
    holders: u32,
    seekers: u32,
    even: u32,
    widths: &[u32; PAIR],
    count: usize,
) -> [u64; MOST_TASKS]
    requires { count ≤ most_tasks }
    ensures { LentAs (take count (widths_in even widths.now)) reserved.now holders seekers count result }
{
    let mut sets = [0u64; MOST_TASKS];
    let mut seeking = seekers;
    for (place, own) in reserved[..count].iter().enumerate() {
        seeking &= seeking ^ (1u32 << place);
        if has(holders, place) {
            let more = grants(GREEDY, *own, seeking, even, widths, count);
            seeking &= seeking ^ owners(&more);
            merge(&mut sets, &more);
        }
    }
    sets
}

// The cores that some of these sets have.
fn union(sets: &[u64]) -> u64
    ensures { (c : ℕ) → c < most_cores → bit result c ≡ among c (map cores sets.now) }
{
    sets.iter().fold(0, |all, set| all | *set)
}

// The set of cores that the row shows of each of the first `count` positions: those that it borrows, or its own cores that no place borrows.
// By a place, since three lists have one there, and the third is written. The count cuts all three.
pub fn shown(
    reserved: &[u64; MOST_TASKS],
    borrowed: &[u64; MOST_TASKS],
    count: usize,
) -> [u64; MOST_TASKS]
    requires fact_1 { count ≤ most_tasks }
    requires fact_2 { NotBoth reserved.now borrowed.now }
    ensures { ShownAs reserved.now borrowed.now count result }
{
    let lent = union(&borrowed[..count]);
    let mut sets = [0u64; MOST_TASKS];
    for i in 0..count {
        sets[i] = borrowed[i] | cores::difference(reserved[i], lent);
    }
    sets
}
