// The cells of a supplied row: how many cores have each byte, unknown positions, and tasks with a wrong width or nothing owed (number 24).
ghost use Rattle.std.specs.Prelude.{◌≡◌, not, cond, ℕ, ◌+◌, ◌≤◌, ◌<◌, eqb, ltb, get_or, length, set};
ghost use Rattle.model.specs.Search.{bit};
ghost use Rattle.model.specs.Sizes.{fenced_byte, most_cores, most_tasks};
ghost use Rattle.phase.specs.Task.{width_now};
ghost use Rattle.plan_check.specs.Shown.{ShownOf, any_wrong, shown_in, wrong_with};

use model::FENCED;
use phase::Task;
use run::Run;

// The bytes that a row can show.
pub const BYTES: usize = 256;

// Whether a byte is an unknown position on a core: a fenced one without 255, another with a byte above the last position.
fn unknown_byte(fence: u64, count: usize, core: u32, byte: u8) -> bool
    requires { core < most_cores }
    ensures { result ≡ cond (bit fence core) (not (eqb byte fenced_byte)) (ltb count byte) }
{
    if (fence >> core) % 2 == 1 {
        byte != FENCED
    } else {
        count < byte as usize
    }
}

// One core more that shows a byte.
fn add(cells: &mut [u8; BYTES], byte: u8)
    requires { (b : ℕ) → b < 256 → get_or cells.old b 0 < 255 }
    ensures { (byte < 256) × (cells.new ≡ set cells.old byte (get_or cells.old byte 0 + 1)) }
{
    cells[byte as usize] += 1;
}

// How many cores of a row show each byte; none where one shows an unknown position.
pub(crate) fn counted(row: &[u8], fence: u64, count: usize) -> Option<[u8; BYTES]>
    requires { length row.now ≤ most_cores }
    ensures { ShownOf fence count row.now (shown_in result) }
{
    let mut cells = [0u8; BYTES];
    for (core, byte) in row.iter().enumerate() {
        if unknown_byte(fence, count, core as u32, *byte) {
            return None;
        }
        add(&mut cells, *byte);
    }
    Some(cells)
}

// The width of a task's job.
fn width_of(task: Task) -> u32
    ensures { result ≡ width_now task }
{
    if task.even {
        task.parameters.second
    } else {
        task.parameters.width
    }
}

// Whether a task that has this number of cores of the row has another number than its job's width, or nothing owed.
fn wrong(task: Task, cells: u8) -> bool
    ensures { result ≡ wrong_with task cells }
{
    (0 < cells) & !((cells as u32 == width_of(task)) & task.phase.works())
}

// Whether some task of the run is wrong in a row with these counts of cells.
// Not a struct of the two: `after` has the run in its plan, and would build one to take it apart.
pub(crate) fn any_wrong(run: Run, cells: &[u8; BYTES]) -> bool
    requires { run.count ≤ most_tasks }
    ensures { result ≡ any_wrong run cells.now }
{
    let tasks = &run.tasks[..run.count];
    tasks
        .iter()
        .zip(&cells[1..])
        .any(|(task, cells)| wrong(*task, *cells))
}
