// The extent of a supplied plan: the last S and the horizon of its run, or 14 or 9.
ghost use Rattle.std.specs.Prelude.{◌≡◌, false};
ghost use Rattle.plan_check.specs.Extent.{ExtentOf, extent_in};
ghost use Rattle.plan_check.specs.Numbers.{state_out};

use crate::SuppliedPlan;
use model::Refusal;
use run::Run;

// The last S and the horizon.
#[derive(Clone, Copy)]
pub struct Extent {
    pub start: u32,
    pub horizon: u32,
}

// The extent of the plan of a run that passes 14: S and P of its tasks.
fn by_tasks(run: Run) -> Result<Extent, Refusal>
    requires { state_out run ≡ false }
    ensures { ExtentOf run (extent_in result) }
{
    let parameters = run.parameters();
    let tasks = &parameters[..run.count];
    let start = table::positions::last_start(tasks);
    let period = table::hyperperiod::hyperperiod(tasks);
    if table::checks::horizon_out(start, period) {
        return Err(Refusal::LongHorizon);
    }
    Ok(Extent {
        start,
        horizon: start + period,
    })
}

impl SuppliedPlan {
    // The extent of the plan, or 14 or 9, which turn every row down. A taken row does not change it.
    pub fn extent(self) -> Result<Extent, Refusal>
        ensures { ExtentOf self.run (extent_in result) }
    {
        if crate::bounds::out(self.run) {
            return Err(Refusal::NotARun);
        }
        by_tasks(self.run)
    }
}
