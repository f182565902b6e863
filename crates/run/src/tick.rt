// The present tick of a run: the numbers of a row, and the cores of each position. Row, sets, working and advance all use it.
ghost use Rattle.run.specs.Tick.{TickOf};

use crate::{Run, allocation, bounds};
use model::{MOST_TASKS, Refusal};

// A tick whose row is taken: the sets of the positions that are given cores, that borrow some, and whose job has either and is Working, bit 0 for
// position 1; and of each position the set of cores that the row shows.
#[derive(Clone, Copy)]
pub struct Tick {
    pub given: u32,
    pub lent: u32,
    pub working: u32,
    pub sets: [u64; MOST_TASKS],
}

impl Run {
    // The present tick. Bit p of `empties` is set if the job of position p + 1, released in this tick, is empty. Refused: 14, 15 with the lowest
    // late position, or 20.
    pub(crate) fn tick(self, empties: u32) -> Result<Tick, Refusal>
        ensures { TickOf self empties result }
    {
        let count = self.count;
        if bounds::head_out(count, self.cores, self.rule, self.fence, self.withdrawn) {
            return Err(Refusal::NotARun);
        }
        let claims = self.claims(empties);
        if 0 < claims.broken {
            return Err(Refusal::NotARun);
        }
        if 0 < claims.late {
            return Err(Refusal::Late(u32::trailing_zeros(claims.late) + 1));
        }
        let begun = empties & claims.released;
        if begun != empties {
            return Err(Refusal::BadEmpty);
        }
        let free = cores::unfenced_cores(self.cores, self.fence);
        let shares = allocation::allocate(
            self.rule,
            free,
            claims.claiming,
            claims.working,
            claims.even,
            &claims.widths,
            count,
        );
        let sets = shares.sets;
        Ok(Tick {
            given: shares.given,
            lent: shares.lent,
            working: (shares.given | shares.lent) & claims.working,
            sets,
        })
    }
}
