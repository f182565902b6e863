// The members of a set: one number, whose binary digits say which numbers are in it.
ghost use Rattle.std.specs.Prelude.{◌≡◌, Bool, ◌&&◌, ℕ, ◌<◌, ◌≤◌, ltb};
ghost use Rattle.std.specs.Iterator.{YieldsFirst, item_count};
ghost use Rattle.model.specs.Members.{members};
ghost use Rattle.model.specs.Search.{bit};
ghost use Rattle.model.specs.Sizes.{most_tasks};

// Whether a place is in a set of places, bit 0 for position 1.
pub fn has(set: u32, place: usize) -> bool
    requires { place < most_tasks }
    ensures { result ≡ bit set place }
{
    (set >> place) % 2 == 1
}

// The set of those of the first `count` places at which a test holds. What the test says is a function `f`, of the clause alone.
pub fn places_where<F: Fn(usize) -> bool>(count: usize, holds: F) -> u32
    requires few { count ≤ most_tasks }
    requires tested { (p : ℕ) → p < count → F.pre holds p }
    ensures { (f : ℕ → Bool) → ((p : ℕ) (r : Bool) → p < count → F.post holds p r → r ≡ f p) → (p : ℕ) → bit result p ≡ ltb p count && f p }
{
    let mut set: u32 = 0;
    for i in 0..count {
        if holds(i) {
            set |= 1u32 << i;
        }
    }
    set
}

// The members of a set that are left, in ascending order; a set of places or of cores.
#[derive(Clone, Copy)]
pub struct Members {
    pub rest: u64,
}

impl From<u32> for Members {
    ghost from_gives = { λ set all. all.rest ≡ set };

    fn from(set: u32) -> Members {
        Members {
            rest: u64::from(set),
        }
    }
}

impl From<u64> for Members {
    ghost from_gives = { λ set all. all.rest ≡ set };

    fn from(set: u64) -> Members {
        Members { rest: set }
    }
}

impl Iterator for Members {
    type Item = usize;

    ghost next_gives = { YieldsFirst (λ s. members s.rest) };

    ghost remaining = { item_count (λ s. members s.rest) };

    fn next(&mut self) -> Option<usize> {
        if self.rest == 0 {
            return None;
        }
        let member = u64::trailing_zeros(self.rest);
        self.rest &= self.rest - 1;
        Some(member as usize)
    }
}
