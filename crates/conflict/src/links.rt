// The words of the kept tasks: a copy of the table's words, with the chain linked over the records that are dropped.
ghost use Rattle.std.specs.Prelude.{◌≡◌, ◌≤◌, ◌<◌, length, set};
ghost use Rattle.table.specs.Numbers.{NoneApplies};
ghost use Rattle.conflict.specs.Relinked.{most_words, next_word_at, padded, relinked};

use model::sets::has;
use table::{HEADER, MOST_WORDS, RECORD};

// A copy of a table's words whose chain is linked anew, record by record.
#[derive(Clone, Copy)]
pub struct NewChain {
    pub words: [u32; MOST_WORDS],
    // the index of the word that is to name the next record
    pub link: usize,
    ghost inside: { link < most_words },
}

// A copy of the words, with zeros after them.
pub fn copied(words: &[u32]) -> [u32; MOST_WORDS]
    requires { length words.now ≤ most_words }
    ensures { result ≡ padded words.now }
{
    let mut copy = [0u32; MOST_WORDS];
    copy[..words.len()].copy_from_slice(words);
    copy
}

// The index of the word that names the record after this one.
pub fn next_at(number: u32) -> usize
    requires { 1 ≤ number }
    ensures { result ≡ next_word_at number }
{
    HEADER + (number as usize - 1) * RECORD
}

impl NewChain {
    // No record is linked yet.
    pub fn of(words: &[u32]) -> NewChain
        requires { length words.now ≤ most_words }
        ensures { (result.words ≡ padded words.now) × (result.link ≡ 0) }
    {
        let copy = copied(words);
        NewChain {
            words: copy,
            link: 0,
        }
    }

    // The record of this number comes next.
    pub fn append(&mut self, number: u32)
        requires { (1 ≤ number) × (next_word_at number < most_words) }
        ensures { (self.new.words ≡ set self.old.words self.old.link number) × (self.new.link ≡ next_word_at number) }
    {
        let link = self.link;
        self.words[link] = number;
        self.link = next_at(number);
    }

    // The words, where the chain ends.
    pub fn end(self) -> [u32; MOST_WORDS]
        ensures { result ≡ set self.words self.link 0 }
    {
        let mut words = self.words;
        words[self.link] = 0;
        words
    }
}

// The words of the tasks in a set of places, with zeros after them: the next of each record kept is the one kept after it, that of the last is zero.
pub(crate) fn relinked(words: &[u32], kept: u32) -> [u32; MOST_WORDS]
    requires { NoneApplies words.now }
    ensures { result ≡ padded (relinked words.now kept) }
{
    let mut chain = NewChain::of(words);
    let mut place: usize = 0;
    let mut number = words[0];
    // A `for` over the places is no plainer: the walk goes by the links, and ends at the first that is 0.
    while 0 < number {
        if has(kept, place) {
            chain.append(number);
        }
        number = words[next_at(number)];
        place += 1;
    }
    chain.end()
}
