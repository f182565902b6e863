// Number 14 of a state, 25, and the answer of the state after a row, with 26.
ghost use Rattle.std.specs.Prelude.{◌≡◌, ◌&&◌, ◌≤◌, eqb};
ghost use Rattle.model.specs.Sizes.{most_tasks};
ghost use Rattle.run.specs.Run.{phase_at};
ghost use Rattle.model.specs.Search.{any};
ghost use Rattle.plan_check.specs.Numbers.{unreachable_phase, state_out, missed, differs};
ghost use Rattle.plan_check.specs.State.{horizon_in};
ghost use Rattle.plan_check.specs.CheckRow.{answer_at, final_answer};
ghost use Rattle.plan_check.specs.RowAnswer.{answer_in};

use crate::{Progress, SuppliedPlan};
use model::Refusal;
use phase::Phase;
use run::Run;

// Whether no supplied plan leaves a task in this phase: it holds, or its counts are unequal.
// A match, since one case compares its numbers: a `matches!` with a guard is no shorter.
fn unreachable(phase: Phase) -> bool
    ensures { result ≡ unreachable_phase phase }
{
    match phase {
        Phase::Working(_, had, reserved) => reserved != had,
        Phase::Holding(_, _) => true,
        Phase::Coming(_) | Phase::Resting(_) => false,
    }
}

// Whether some task of the run is in such a phase.
// The count within 32 is a clause, here and in the functions of a state: a state is any run, and 14 tests it.
// A type of states that pass would be built anew for each row.
fn any_unreachable(run: Run) -> bool
    requires { run.count ≤ most_tasks }
    ensures { result ≡ any run.count (λ p. unreachable_phase (phase_at run p)) }
{
    run.tasks[..run.count]
        .iter()
        .any(|task| unreachable(task.phase))
}

// Whether 14 turns the state down: the run, a withdrawn position, a task Holding or with unequal counts.
pub(crate) fn out(run: Run) -> bool
    ensures { result ≡ state_out run }
{
    run.out() || run.withdrawn != 0 || any_unreachable(run)
}

// Whether some task is Working at its deadline (number 25).
pub(crate) fn missed(run: Run) -> bool
    requires { run.count ≤ most_tasks }
    ensures { result ≡ missed run }
{
    run.tasks[..run.count].iter().any(|task| task.late())
}

impl SuppliedPlan {
    // Whether some task's phase is not the recorded one (number 26).
    fn differs(self) -> bool
        requires { self.run.count ≤ most_tasks }
        ensures { result ≡ differs self }
    {
        let tasks = &self.run.tasks[..self.run.count];
        tasks
            .iter()
            .zip(&self.noted)
            .any(|(task, note)| task.phase != note.phase)
    }

    // The answer after the last row: 25 and then 26, or the plan is accepted.
    fn final_answer(self) -> Result<Progress, Refusal>
        requires { self.run.count ≤ most_tasks }
        ensures { answer_in result ≡ final_answer self }
    {
        if missed(self.run) {
            return Err(Refusal::DeadlineMissed(self.tick));
        }
        if self.differs() {
            return Err(Refusal::PhasesDiffer(self.tick));
        }
        Ok(Progress::Accepted)
    }

    // The answer of the state after a row, where the horizon is known.
    pub(crate) fn answer_at(self, horizon: u32) -> Result<Progress, Refusal>
        requires fact_1 { self.run.count ≤ most_tasks }
        requires fact_2 { horizon ≡ horizon_in self.run }
        ensures { answer_in result ≡ answer_at self }
    {
        if self.tick == horizon {
            return self.final_answer();
        }
        Ok(Progress::Taken)
    }
}
