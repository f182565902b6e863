// One pass over the tasks of a run in the present tick: those outside their limits, late, claiming (with which width), and those whose job is released.
ghost use Rattle.std.specs.Prelude.{◌≡◌, ◌≤◌};
ghost use Rattle.run.specs.Claims.{ClaimsOf};
ghost use Rattle.model.specs.Sizes.{most_cores, most_tasks};

use crate::{Run, bits};
use model::{MOST_TASKS, sets};

// What the rule reads of the tasks in a tick: the set of those that are outside their limits, the set of those that are Working at their deadline, the set of
// those that claim, the set of those that are Working, the set of those whose job is released in this tick, the set of those whose job is an even one,
// and both widths: the first of each place, then the second of each. The sets of those that claim and that are Working are of the tasks as seen with their
// empty jobs.
// Whole sets and one array of widths, since 14, 15 and 20 are tests of whole sets, and the rule takes the sets and the
// widths as they are.
#[derive(Clone, Copy)]
pub struct Claims {
    pub broken: u32,
    pub late: u32,
    pub claiming: u32,
    pub working: u32,
    pub released: u32,
    pub even: u32,
    pub widths: [u32; rule::PAIR],
}

impl Run {
    // What the tasks below the count claim in the present tick. Bit p of `empties` is set if the job of position p + 1 is empty; that of a withdrawn position
    // is too.
    // The empties are one number, that each question on a run is asked with.
    // No type of runs within their limits: it would be built for this one call, and 14 is known of the tasks only after it.
    pub(crate) fn claims(self, empties: u32) -> Claims
        requires { (self.count ≤ most_tasks) × (self.cores ≤ most_cores) }
        ensures { ClaimsOf self empties result }
    {
        let rule = self.rule;
        let count = self.count;
        let wide = cores::unfenced_count(self.cores, self.fence);
        let emptied = empties | self.withdrawn;
        let mut broken: u32 = 0;
        let mut late: u32 = 0;
        let mut claiming: u32 = 0;
        let mut working: u32 = 0;
        let mut released: u32 = 0;
        let mut even: u32 = 0;
        let mut widths = [0u32; rule::PAIR];
        for i in 0..count {
            let task = self.tasks[i];
            let phase = task.phase;
            let place = i as u32;
            broken = bits::with(broken, place, task.out(rule, wide));
            late = bits::with(late, place, task.late());
            let seen = phase.emptied(rule, sets::has(emptied, i));
            claiming = bits::with(claiming, place, seen.claims());
            working = bits::with(working, place, seen.works());
            released = bits::with(released, place, phase.released());
            even = bits::with(even, place, task.even);
            widths[i] = task.parameters.width;
            widths[MOST_TASKS + i] = task.parameters.second;
        }
        Claims {
            broken,
            late,
            claiming,
            working,
            released,
            even,
            widths,
        }
    }
}
