// Everything that the program prints for an input, piece by piece.
#![tactic(auto)]

ghost use Rattle.std.specs.Prelude.{true, ◌≡◌, ◌≤◌, take};
ghost use Rattle.simulation.specs.TickState.{numbers_of, tick_state_of};
ghost use Rattle.printer.specs.Valid.{valid};
ghost use Rattle.printer.specs.Printer.{Stepping, Stepped, PrinterStartOf, WordsPrinter, MadeFrom, PieceOf, no_table};
ghost use Rattle.model.specs.Sizes.{most_cores, most_tasks};

mod cells; // cells.rt: the text of a row's cores
mod valid; // valid.rt: whether a printer can be stepped

use judge::Verdict;
use simulation::TRIPLE;
use simulation::columns::Columns;
use simulation::machine::Registers;
use table::Loaded;
use text::row::{CELLS, LINE};
use text::{first, row};

// The state of the printing: the registers of its run, the length of the row's text, and that of the line.
// Lengths of buffers that lie in the printer, without a heap. A step of the loop returns all three.
#[derive(Clone, Copy)]
pub struct Stage {
    pub registers: Registers,
    pub text: usize,
    pub ready: usize,
}

// What is left to print of an input: the table, where its rows end, its run, the text of the row,
// the line that is being written, and how much of it has been.
// Buffers with their lengths, without a heap. The clauses speak of any printer (`valid`), so no invariant holds of all.
#[derive(Clone, Copy)]
pub struct Printer {
    pub table: Loaded,
    pub end: u32,
    pub places: [u32; TRIPLE],
    pub stage: Stage,
    pub row: [u8; CELLS],
    pub line: [u8; LINE],
    pub given: usize,
}

// The number of bytes written, and the printer of what is left.
// A count of the caller's bytes, as a read gives it: the buffer is lent.
#[derive(Clone, Copy)]
pub struct Piece {
    pub printer: Printer,
    pub length: usize,
}

// Writes the line of a tick, and takes the run one tick on.
// A row's text is made anew where the choice has changed, as plan's row is: of other arguments, into another buffer.
fn next_line(
    columns: &Columns,
    stage: Stage,
    places: &mut [u32; TRIPLE],
    text: &mut [u8; CELLS],
    line: &mut [u8; LINE],
) -> Stage
    requires { Stepping (numbers_of columns.now) stage places.old text.old line.old }
    ensures { Stepped (numbers_of columns.now) (tick_state_of stage.registers places.old)
        (take stage.text text.old) line.old result places.new text.new line.new }
{
    let setting = columns.setting;
    let registers = stage.registers;
    let next = simulation::ticks::step(columns, registers, places);
    let mut size = stage.text;
    if (next.chosen != registers.chosen) | (next.even != registers.even) {
        size = cells::put_allocation(
            setting.rule,
            setting.cores,
            setting.fence,
            next.chosen,
            next.even,
            &columns.widths,
            setting.count,
            text,
        );
    }
    let ready = row::put_row(line, registers.tick, &text[..size]);
    Stage {
        registers: next,
        text: size,
        ready,
    }
}

// The printer of a verdict's line and of the rows of its table up to a tick.
// The two limits are a clause and no `Fitting`: a refused table has a printer too.
fn start(table: Loaded, end: u32, verdict: Verdict) -> Printer
    requires { (table.cores ≤ most_cores) × (table.count ≤ most_tasks) }
    ensures { PrinterStartOf table end verdict result }
{
    let columns = simulation::columns::columns_of(table);
    let machine = simulation::machine::start(table);
    let places = machine.places;
    let registers = machine.registers;
    let mut text = [0u8; CELLS];
    let size = cells::put_allocation(
        table.rule,
        table.cores,
        table.fence,
        0,
        registers.even,
        &columns.widths,
        table.count,
        &mut text,
    );
    let mut line = [0u8; LINE];
    let ready = first::put_first(&mut line, verdict);
    let stage = Stage {
        registers,
        text: size,
        ready,
    };
    Printer {
        table,
        end,
        places,
        stage,
        row: text,
        line,
        given: 0,
    }
}

// A table without tasks, of which no rows are printed.
// Zeros, since the table of a printer is public, and `valid` and `PieceOf` speak of it in every printer.
fn no_table() -> Loaded
    ensures { result ≡ no_table }
{
    Loaded::default()
}

// The printer of a table's words; of words that are refused, the verdict's line is all that is printed.
fn of_words(words: &[u32]) -> Printer
    ensures { WordsPrinter words.now result }
{
    let verdict = judge::judge(words);
    match table::load(words) {
        Ok(table) => {
            let end = first::rows_end(verdict, table.horizon);
            start(table, end, verdict)
        }
        Err(_) => start(no_table(), 0, verdict),
    }
}

impl Printer {
    // The printer of everything that is printed for the bytes of an input.
    pub fn new(bytes: &[u8]) -> Printer
        ensures { MadeFrom bytes.now result }
    {
        // No plainer as one in text: a new public function with its own clause, for these four lines in three crates.
        match text::read(bytes) {
            Some(words) => of_words(words.as_slice()),
            // what is no table's text has no numbers, and no words are refused likewise: 1 0
            None => of_words(&[]),
        }
    }

    // Fills the buffer with the next bytes of the output, from a printer that is valid.
    fn emit(self, buffer: &mut [u8]) -> Piece
        requires { valid self ≡ true }
        ensures { PieceOf self buffer.old buffer.new result }
    {
        let table = self.table;
        let end = self.end;
        let columns = simulation::columns::columns_of(table);
        let mut places = self.places;
        let mut stage = self.stage;
        let mut text = self.row;
        let mut line = self.line;
        let mut given = self.given;
        let mut at: usize = 0;
        loop {
            let part = (stage.ready - given).min(buffer.len() - at);
            at = row::copy(&line, given, part, buffer, at);
            given += part;
            if given < stage.ready {
                break;
            }
            if stage.registers.tick == end {
                break;
            }
            stage = next_line(&columns, stage, &mut places, &mut text, &mut line);
            given = 0;
        }
        let printer = Printer {
            table,
            end,
            places,
            stage,
            row: text,
            line,
            given,
        };
        Piece {
            printer,
            length: at,
        }
    }

    // Fills the buffer with the next bytes of the output; a printer that is not valid has none.
    // The length 0 is a count of bytes, as at the end of the output (`PieceOf`).
    pub fn piece(self, buffer: &mut [u8]) -> Piece
        ensures { PieceOf self buffer.old buffer.new result }
    {
        let printer = self;
        if printer.valid() {
            return printer.emit(buffer);
        }
        Piece { printer, length: 0 }
    }
}
