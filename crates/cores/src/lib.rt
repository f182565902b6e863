// Sets of cores: one 64-bit number, core 0 its lowest digit.
#![tactic(auto)]

ghost use Rattle.std.specs.Prelude.{◌≡◌, min, take};
ghost use Rattle.model.specs.Search.{up_from};
ghost use Rattle.model.specs.Fence.{unfenced_count, outside, unfenced};
ghost use Rattle.model.specs.Sizes.{most_cores};
ghost use Rattle.cores.specs.Cores.{cores};

use model::MOST_CORES;

// The first `count` cores, of 64.
// The two cases are plainer than `checked_shl` and a closure.
pub fn first_cores(count: u32) -> u64
    ensures { cores result ≡ up_from 0 (min count most_cores) }
{
    if count < MOST_CORES {
        (1u64 << count) - 1
    } else {
        0xffff_ffff_ffff_ffff
    }
}

// The set of the `width` lowest-numbered free cores; all of them where there are fewer. A whole run of adjacent free cores is taken in one step.
pub fn lowest(free: u64, width: u32) -> u64
    ensures { cores result ≡ take width (cores free) }
{
    let mut rest = free;
    let mut wanted = width;
    // No plainer over `Members`: that gives one core a step, and here a whole run of adjacent cores is taken in one.
    while 0 < wanted && 0 < rest {
        let first = u64::trailing_zeros(rest);
        let run = u64::trailing_zeros(!(rest >> first));
        let piece = wanted.min(run);
        rest -= first_cores(piece) << first;
        wanted -= piece;
    }
    free - rest
}

// The cores of a set that another does not have.
pub fn difference(all: u64, fence: u64) -> u64
    ensures { cores result ≡ outside fence (cores all) }
{
    all & (all ^ fence)
}

// The cores below the count that are outside the fence.
pub fn unfenced_cores(count: u32, fence: u64) -> u64
    ensures { cores result ≡ unfenced fence (min count most_cores) }
{
    difference(first_cores(count), fence)
}

// How many cores below the count are outside the fence.
pub fn unfenced_count(count: u32, fence: u64) -> u32
    ensures { result ≡ unfenced_count fence (min count most_cores) }
{
    u64::count_ones(unfenced_cores(count, fence))
}
