// The passes over a table that passed: from the lowest priority upward, a task is dropped where what is left without it still misses.
ghost use Rattle.std.specs.Prelude.{◌≡◌, length, ◌≤◌, ◌<◌, ◌-◌, ◌^◌};
ghost use Rattle.model.specs.Sizes.{most_tasks};
ghost use Rattle.table.specs.Numbers.{NoneApplies};
ghost use Rattle.table.specs.Words.{table_of};
ghost use Rattle.conflict.specs.Conflict.{conflicts, dropped, pass, conflict_set};

use judge::Verdict;
use model::sets::{has, places_where};

// The tasks of a set of places as a table of their own: the words of the whole table, which pass, and the set.
#[derive(Clone, Copy)]
pub(crate) struct SubTable<'a> {
    words: &'a [u32],
    kept: u32,
    ghost passes: { NoneApplies words.now },
}

impl<'a> SubTable<'a> {
    // Whether the tasks miss a deadline; the empty set does not: its words are refused by 4.
    fn misses(self) -> bool
        ensures { result ≡ conflicts (table_of self.entry.words.now) self.entry.kept }
    {
        let part = crate::links::relinked(self.words, self.kept);
        let size = self.words.len();
        let verdict = judge::judge(&part[..size]);
        matches!(verdict, Verdict::Miss(_, _))
    }

    // The set without a place, where the place is in it and the rest still misses; else the set.
    fn dropped(self, place: u32) -> u32
        requires { place < most_tasks }
        ensures { result ≡ dropped (table_of self.entry.words.now) place self.entry.kept }
    {
        if has(self.kept, place as usize) {
            let rest = self.kept - (1u32 << place);
            let part = SubTable {
                words: self.words,
                kept: rest,
            };
            if part.misses() {
                return rest;
            }
        }
        self.kept
    }
}

// What one pass over the first `count` places leaves of a set.
fn pass(whole: SubTable, count: u32) -> u32
    requires { count ≤ most_tasks }
    ensures { result ≡ pass (table_of whole.entry.words.now) count whole.entry.kept }
{
    let words = whole.words;
    let mut left = whole.kept;
    for place in (0..count).rev() {
        let part = SubTable { words, kept: left };
        left = part.dropped(place);
    }
    left
}

// The set of the first `count` places.
// No plainer by `places_where`: one expression.
fn all(count: u32) -> u32
    requires { count ≤ most_tasks }
    ensures { result ≡ 2 ^ count - 1 }
{
    places_where(count as usize, |_| true)
}

// What the passes leave of the whole table, of this number of tasks: passes until one drops nothing.
pub(crate) fn passes(words: &[u32], count: u32) -> u32
    requires passes { NoneApplies words.now }
    requires count { count ≡ length (table_of words.now).tasks }
    ensures { result ≡ conflict_set (table_of words.now) }
{
    let mut kept = all(count);
    loop {
        let part = SubTable { words, kept };
        let left = pass(part, count);
        if left == kept {
            return kept;
        }
        kept = left;
    }
}
