// The numbers of a table's text.
ghost use Rattle.std.specs.Prelude.{◌≡◌, ◌≤◌, take};
ghost use Rattle.text.specs.Format.{most_numbers};

use crate::NUMBERS;

// The numbers of a table's text: the first `count` of these, with zeros past them.
// An array with its count stands for a list, without a heap.
// Not `arrayvec`: an ArrayVec is not Copy, as this is, and `read_in` of specs/Input has `count`, and all of `words`.
#[derive(Clone, Copy)]
pub struct Words {
    pub count: usize,
    pub words: [u32; NUMBERS],
    ghost most: { count ≤ most_numbers },
}

impl Words {
    // The numbers alone.
    pub fn as_slice(&self) -> &[u32]
        ensures { result.now ≡ take self.now.count self.now.words }
    {
        &self.words[..self.count]
    }
}
