// A table with an order of its tasks: its words in that order, the verdict on them, and the positions.
ghost use Rattle.std.specs.Prelude.{◌≡◌, ◌<◌, length, take};
ghost use Rattle.table.specs.Numbers.{NoneApplies};
ghost use Rattle.table.specs.Words.{count, visited};
ghost use Rattle.judge.specs.Judged.{Judged};
ghost use Rattle.priority_order.specs.Answer.{positions_of};
ghost use Rattle.priority_order.specs.Orders.{OrderIn, reordered};

use conflict::links::{NewChain, next_at};
use judge::Verdict;
use model::MOST_TASKS;
use table::MOST_WORDS;

// The number of the record at a place of the chain, which is C's: the supplier's words name each next record.
fn record_at(words: &[u32], place: usize) -> u32
    requires { NoneApplies words.now × (place < count words.now) }
    ensures { result ≡ visited words.now place }
{
    let mut number = words[0];
    for _ in 0..place {
        number = words[next_at(number)];
    }
    number
}

// The words of a table that passes, and an order of its tasks: as many of the places count as it has tasks.
#[derive(Clone, Copy)]
pub(crate) struct Order<'a> {
    pub(crate) words: &'a [u32],
    pub(crate) count: usize,
    pub(crate) places: [u32; MOST_TASKS],
    ghost fits: { ∥ OrderIn words.now count places ∥₁ },
}

impl<'a> Order<'a> {
    // The words of the table in the order, since the judge takes C's words.
    // The next of each record is the one after it in the order, that of the last is zero.
    pub(crate) fn reordered(self) -> [u32; MOST_WORDS]
        ensures { take (length self.entry.words.now) result ≡ reordered self.entry.words.now self.entry.places }
    {
        let mut chain = NewChain::of(self.words);
        for place in &self.places[..self.count] {
            chain.append(record_at(self.words, *place as usize));
        }
        chain.end()
    }

    // The verdict on the table in the order.
    pub(crate) fn verdict(self) -> Verdict
        ensures { Judged (reordered self.entry.words.now self.entry.places) result }
    {
        let part = self.reordered();
        judge::judge(&part[..self.words.len()])
    }

    // The positions of the places of the order, and zeros after them.
    pub(crate) fn positions(self) -> [u32; MOST_TASKS]
        ensures { result ≡ positions_of self.entry.count self.entry.places }
    {
        let mut positions = [0u32; MOST_TASKS];
        // tried: over `iter_mut().zip(..)` the proof didn't close; until the loop ends no array holds what is written
        for i in 0..self.count {
            positions[i] = self.places[i] + 1;
        }
        positions
    }
}
