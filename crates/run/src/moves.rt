// One tick of a run: each task goes to its next phase.
ghost use Rattle.std.specs.Prelude.{◌≡◌, false, ℕ};
ghost use Rattle.model.specs.Search.{bit};
ghost use Rattle.run.specs.Run.{has_cores, has_lent, moved};
ghost use Rattle.run.specs.Numbers.{run_out};

use crate::Run;
use model::sets;

impl Run {
    // The run one tick on, of an advance that is taken; `given` is the set of places that are given cores in this tick, `lent` that of those that borrow some.
    // No type of runs that pass 14: it would be built for this one call, and `advance` knows of 14 by its tick.
    pub(crate) fn moved(self, given: u32, lent: u32, reports: u32, empties: u32) -> Run
        requires fact_1 { run_out self ≡ false }
        requires fact_2 { ((p : ℕ) → bit given p ≡ has_cores self empties p) }
        requires fact_3 { ((p : ℕ) → bit lent p ≡ has_lent self empties p) }
        ensures { result ≡ moved (bit reports) empties self }
    {
        let mut run = self;
        let rule = self.rule;
        let count = self.count;
        let emptied = empties | self.withdrawn;
        for i in 0..count {
            run.tasks[i] = run.tasks[i].next(
                rule,
                sets::has(emptied, i),
                sets::has(given, i),
                sets::has(lent, i),
                sets::has(reports, i),
            );
        }
        run
    }
}
