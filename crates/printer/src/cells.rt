// The text of a row's cores, from the set of places that claim.
// The rule is a number, since a printer has a table of any rule.
ghost use Rattle.std.specs.Prelude.{◌≤◌, length, take};
ghost use Rattle.text.specs.Written.{Put};
ghost use Rattle.text.specs.Output.{longest_cells};
ghost use Rattle.printer.specs.Cells.{cells};
ghost use Rattle.model.specs.Sizes.{most_cores, most_tasks};
ghost use Rattle.rule.specs.Widths.{widths_in};

use rule::PAIR;
use text::row;

// Writes the bytes of the cores, and a newline, where the places of the set `claims` claim, those of the set `even` with their second width;
// returns where they end. The rule is a number, since a printer has a table of any rule.
pub(crate) fn put_allocation(
    rule: u32,
    cores: u32,
    fence: u64,
    claims: u32,
    even: u32,
    widths: &[u32; PAIR],
    count: usize,
    text: &mut [u8],
) -> usize
    requires { (cores ≤ most_cores) × (count ≤ most_tasks) × (longest_cells ≤ length text.old) }
    ensures { (Put text.old 0 (cells rule cores fence (take count (widths_in even widths.now)) claims) text.new result)
        × (result ≤ longest_cells) }
{
    let row = rule::show(rule, cores, fence, claims, even, widths, count);
    row::put_cells(row, cores as usize, text)
}
