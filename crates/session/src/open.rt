// The table of a session, and the run that it starts.
ghost use Rattle.std.specs.Prelude.{◌≡◌};
ghost use Rattle.text.specs.Format.{words_of, numbers_in};
ghost use Rattle.run.specs.Start.{start_of, started};
ghost use Rattle.session.specs.Transcript.{start_line};
ghost use Rattle.session.specs.Session.{TextWritten};

use crate::REPLY;
use crate::replies::{self, Reply};
use model::Refusal;
use run::Run;

// The start of the run of a table's text.
fn start(table: &[u8]) -> Result<Run, Refusal>
    ensures { started result ≡ start_of (numbers_in (words_of table.now)) }
{
    let words = text::read(table).ok_or(Refusal::NotATable)?;
    run::start(words.as_slice())
}

// Starts the run of a table's text, and writes start's answer; a refused start leaves the run of all zeros.
pub(crate) fn begin(table: &[u8], out: &mut [u8; REPLY]) -> Reply
    ensures { TextWritten (start_line (numbers_in (words_of table.now))) out.old out.new result.length × (result.run ≡ (start_of (numbers_in (words_of table.now))).run) }
{
    match start(table) {
        Ok(run) => Reply {
            run,
            length: replies::write_line(b"ok", &[], out),
        },
        Err(refusal) => Reply {
            run: run::starts::empty(),
            length: replies::write_refused(refusal, out),
        },
    }
}
