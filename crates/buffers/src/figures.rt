// A number for each task in a lent buffer of words.
ghost use Rattle.std.specs.Prelude.{◌++◌, ◌≡◌, ◌≤◌, length, drop};
ghost use Rattle.model.specs.Sizes.{most_tasks};

use model::MOST_TASKS;

// Writes the numbers; the words after them stay.
pub fn put_figures<T: Copy>(figures: [T; MOST_TASKS], words: &mut [T])
    requires { most_tasks ≤ length words.old }
    ensures { words.new ≡ figures ++ drop most_tasks words.old }
{
    // By index: `copy_from_slice` brought memmove into the archive here, and C is promised memcpy and memset alone.
    for i in 0..MOST_TASKS {
        words[i] = figures[i];
    }
}
