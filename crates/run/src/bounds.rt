// Number 14: whether a run is outside its limits.
ghost use Rattle.std.specs.Prelude.{◌≡◌, ◌||◌, not};
ghost use Rattle.table.specs.Limits.{in_range, cores_out, rule_out, fence_out};
ghost use Rattle.run.specs.Numbers.{run_out, past_count};
ghost use Rattle.model.specs.Sizes.{most_tasks};

use crate::{Run, bits};
use model::MOST_TASKS;

// Whether a run's count, core count, rule, fence or withdrawn set is out of range.
// The rule is a number, since this is the test of which numbers are a rule.
pub(crate) fn head_out(count: usize, cores: u32, rule: u32, fence: u64, withdrawn: u32) -> bool
    ensures { result ≡ not (in_range 1 most_tasks count) || (cores_out cores || (rule_out rule || (fence_out cores fence || past_count count withdrawn))) }
{
    !((1 <= count) & (count <= MOST_TASKS))
        | (table::limits::cores_out(cores)
            | (table::limits::rule_out(rule)
                | (table::limits::fence_out(cores, fence) | bits::past(withdrawn, count))))
}

impl Run {
    // Whether the run is outside its limits (number 14).
    pub fn out(self) -> bool
        ensures { result ≡ run_out self }
    {
        let rule = self.rule;
        let cores = self.cores;
        let count = self.count;
        if head_out(count, cores, rule, self.fence, self.withdrawn) {
            return true;
        }
        let wide = cores::unfenced_count(cores, self.fence);
        self.tasks[..count].iter().any(|task| task.out(rule, wide))
    }
}
