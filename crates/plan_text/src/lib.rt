// A supplied plan as text, checked as it comes: the table, a line `--`, and the plan's lines, whose rows are taken one after another.
#![tactic(auto)]

ghost use Rattle.std.specs.Prelude.{◌≡◌, ◌≤◌, length, IfOk};
ghost use Rattle.model.specs.Refusal.{number_of, position_of};
ghost use Rattle.plan_check.specs.CheckRow.{check_row_of};
ghost use Rattle.plan_check.specs.RowAnswer.{entered_in};
ghost use Rattle.splitter.specs.Split.{nothing};
ghost use Rattle.plan_text.specs.Checked.{next_line, skipped, refusal_answer, said, answered, stepped, step_of, opened_of, opening, rows_at, end_answer};
ghost use Rattle.plan_text.specs.declared.Check.TheVariants as code;
ghost use Rattle.plan_text.specs.Check.{Table, ExtentKnown, plan_answer, answer_in, is_over, check_in, fed_in, FedBy, FedOf, NewOf};

pub mod line; // line.rt: the row in a line
pub mod answer_text; // answer_text.rt: the line that is printed

use model::Refusal;
use plan_check::extent::Extent;
use plan_check::{Progress, SuppliedPlan};

// The answer: the plan is accepted; rows are missing from this tick on; a fault with its number and tick; refused with number and position; or the line
// with this number is no row.
// Numbers, not a Refusal: `answer_text::put` prints any, and a narrower type would ask more of its callers.
#[derive(Clone, Copy)]
pub enum PlanAnswer {
    Accepted,
    Unfinished(u32),
    Fault(u32, u32),
    Refused(u32, u32),
    Unread(u32),
}

impl From<Refusal> for PlanAnswer {
    ghost from_gives = { λ e a. said a ≡ refusal_answer (number_of e) (position_of e) };

    // 24 to 26 are faults of the plan; any other number turns it down.
    fn from(refusal: Refusal) -> PlanAnswer {
        let number = refusal.number();
        match refusal {
            Refusal::BadRow(tick) | Refusal::DeadlineMissed(tick) | Refusal::PhasesDiffer(tick) =>
                PlanAnswer::Fault(number, tick),
            _ => PlanAnswer::Refused(number, refusal.position()),
        }
    }
}

// A plan between two lines: its state, the number of lines so far, and whether its last row was taken and it is accepted.
// A flag: an accepted plan has its state and its lines too, and a further row is taken by the same call.
// A bool, since `skipped` and `end_answer` of specs test one.
#[derive(Clone, Copy)]
pub struct PlanProgress {
    pub plan: SuppliedPlan,
    pub lines: u32,
    pub accepted: bool,
}

// The state of a check: what the next bytes are read as, the table or the plan; or its answer, after which nothing is read.
// Not session's Stage, which has the run beside it.
// A check that is over holds its answer. `Over(None)`, over before any answer, was a value of the old state, and `FedOf`
// speaks of it too.
#[derive(Clone, Copy)]
pub enum Check {
    Table,
    Plan(PlanProgress),
    Over(Option<PlanAnswer>),
}

// How many bytes were taken, and the check after them.
// No plainer as one with session's: that has the length of what was written beside it.
#[derive(Clone, Copy)]
pub struct Fed {
    pub check: Check,
    pub taken: usize,
}

// A line more; the count stops at the largest number that it can be.
fn next_line(lines: u32) -> u32
    ensures { result ≡ next_line lines }
{
    lines.saturating_add(1)
}

// Whether a line is skipped: the first where it is a verdict's, and an empty one after the last row.
#[tactic(auto, unfolding(crate::specs::Checked::skipped))]
fn passes(rows: PlanProgress, line: &[u8]) -> bool
    ensures { result ≡ skipped rows line.now }
{
    let verdict = line::is_verdict(line);
    ((rows.lines == 0) & verdict) | (rows.accepted & (line.len() == 0))
}

// The extent of a plan, computed once for all its rows; none where 14 or 9 turns it down.
fn extent_of(plan: SuppliedPlan) -> Option<Extent>
    ensures { ExtentKnown result plan }
{
    plan.extent().ok()
}

// Takes a row of a plan with this extent.
fn take(
    plan: SuppliedPlan,
    extent: Option<Extent>,
    row: &[u8],
) -> Result<(Progress, SuppliedPlan), Refusal>
    requires { ExtentKnown extent plan }
    ensures { (entered_in plan result ≡ check_row_of plan row.now) × ExtentKnown extent (entered_in plan result).plan }
{
    match extent {
        Some(known) => plan.enter(known, row),
        None => plan.check_row(row),
    }
}

// The plan after a line, where more lines are needed; or the answer.
fn step(
    rows: PlanProgress,
    extent: Option<Extent>,
    bytes: &[u8],
) -> Result<PlanProgress, PlanAnswer>
    requires { ExtentKnown extent rows.plan }
    ensures { (stepped (step_of rows bytes.now) result ≡ step_of rows bytes.now) × IfOk result (λ next. ExtentKnown extent next.plan) }
{
    let lines = next_line(rows.lines);
    if passes(rows, bytes) {
        return Ok(PlanProgress { lines, ..rows });
    }
    match line::read(bytes) {
        Some(row) if row.tick == rows.plan.tick => {
            let (progress, plan) = take(rows.plan, extent, &row.cells[..row.count])?;
            Ok(PlanProgress {
                plan,
                lines,
                accepted: matches!(progress, Progress::Accepted),
            })
        }
        _ => Err(PlanAnswer::Unread(lines)),
    }
}

// The answer after the last line.
#[tactic(auto, unfolding(crate::specs::Checked::end_answer))]
fn end_rows(rows: PlanProgress) -> PlanAnswer
    ensures { said result ≡ end_answer nothing rows }
{
    if rows.accepted {
        return PlanAnswer::Accepted;
    }
    PlanAnswer::Unfinished(rows.plan.tick)
}

// The plan's lines from a place on: each line that has ended, one that is so long that it is decided, and at the end of the input the last one.
fn feed_plan(start: PlanProgress, bytes: &[u8], from: usize, ended: bool) -> Fed
    requires { from ≤ length bytes.now }
    ensures { FedBy (plan_answer start) from ended bytes.now (fed_in result) }
{
    let extent = extent_of(start.plan);
    let mut rows = start;
    let mut at = from;
    // A loop over the lines is no plainer: what is left begins where the last whole line ends, and is returned.
    while at < bytes.len() {
        let Some(part) = splitter::line(&bytes[at..], line::LONG, ended) else {
            return Fed {
                check: Check::Plan(rows),
                taken: at,
            };
        };
        match step(rows, extent, &bytes[at..at + part.end]) {
            Ok(next) => rows = next,
            Err(answer) => {
                return Fed {
                    check: Check::Over(Some(answer)),
                    taken: at + part.next,
                };
            }
        }
        at += part.next;
    }
    let check = if ended {
        Check::Over(Some(end_rows(rows)))
    } else {
        Check::Plan(rows)
    };
    Fed { check, taken: at }
}

// The plan of a table's text before its first row, or why the table is refused.
// Not inlined: its copies of the plan would take stack while the rows are taken.
#[inline(never)]
fn begin(table: &[u8]) -> Result<PlanProgress, Refusal>
    ensures { opening result ≡ opened_of table.now }
{
    let words = text::read(table).ok_or(Refusal::NotATable)?;
    let plan = plan_check::begin(words.as_slice())?;
    Ok(PlanProgress {
        plan,
        lines: 0,
        accepted: false,
    })
}

// The table and the line `--`, once it has ended, and the bytes of the plan after it.
// No plainer as one with session's: three lines are alike, and what follows the table differs.
fn feed_table(bytes: &[u8], ended: bool) -> Fed
    ensures { FedBy (answer_in Table (check_in code.Table)) 0 ended bytes.now (fed_in result) }
{
    let Some(part) = splitter::table(bytes, ended) else {
        return Fed {
            check: Check::Table,
            taken: 0,
        };
    };
    match begin(&bytes[..part.end]) {
        Ok(rows) => feed_plan(rows, bytes, part.next, ended),
        // not by From: the table's numbers are all below 24, which the type does not say
        Err(refusal) => Fed {
            check: Check::Over(Some(PlanAnswer::Refused(refusal.number(), refusal.position()))),
            taken: bytes.len(),
        },
    }
}

impl Check {
    // A check before its first byte.
    pub fn new() -> Check
        ensures { NewOf (check_in result) }
    {
        Check::Table
    }

    // Takes the lines that have ended of the bytes, and all where the input has; gives the answer that is due. What is left is to be fed again, with what
    // comes after it.
    pub fn feed(self, bytes: &[u8], ended: bool) -> Fed
        ensures { FedOf (check_in self) ended bytes.now (fed_in result) }
    {
        // A match: FedOf speaks of a check in any stage.
        match self {
            Check::Table => feed_table(bytes, ended),
            Check::Plan(rows) => feed_plan(rows, bytes, 0, ended),
            Check::Over(_) => Fed {
                check: self,
                taken: bytes.len(),
            },
        }
    }

    // The answer, once it is known: nothing that comes changes it any more.
    pub fn answer(self) -> Option<PlanAnswer>
        ensures { answered result ≡ (check_in self).answer }
    {
        match self {
            Check::Over(answer) => answer,
            Check::Table | Check::Plan(_) => None,
        }
    }

    // Whether the answer is known.
    pub fn is_over(self) -> bool
        ensures { result ≡ is_over (check_in self).stage }
    {
        matches!(self, Check::Over(_))
    }
}
