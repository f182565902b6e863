// Reads a table, a line `--` and operations from standard input as they come, and prints the answers of the run.
#![tactic(auto)]

ghost use Rattle.std.specs.Prelude.{◌≡◌};
ghost use Rattle.splitter.specs.Split.{too_many};
ghost use Rattle.replay.specs.Rounds.{RoundOf};

use session::{REPLY, Session};
use std::io::Write;
use std::ops::ControlFlow;
use stream::{Feed, Round};

// The program `replay`: its session.
#[derive(Drop)]
struct Replay {
    session: Session,
}

impl Feed for Replay {
    ghost round = { λ old ended bytes new r. RoundOf old.session ended bytes new.session r };

    ghost most = { too_many };

    // Feeds bytes to the session until no reply is due, and writes its replies.
    fn feed<W: Write>(&mut self, out: &mut W, bytes: &[u8], ended: bool) -> Round {
        let mut reply = [0u8; REPLY];
        let mut taken: usize = 0;
        let mut count: usize = 0;
        loop {
            let fed = self.session.feed(&bytes[taken..], ended, &mut reply);
            self.session = fed.session;
            taken += fed.taken;
            let sent = stream::send(out, count, &reply[..fed.length]);
            match sent {
                Ok(whole) => count = whole,
                Err(_) => return Round {
                    taken,
                    sent,
                    flow: ControlFlow::Break(()),
                },
            }
            if fed.taken == 0 {
                let flow = if ended | fed.session.is_over() {
                    ControlFlow::Break(())
                } else {
                    ControlFlow::Continue(())
                };
                return Round { taken, sent, flow };
            }
        }
    }
}

// A main for each program: the runtime is handed to it alone, and all else is `stream::run`.
fn main(rt: HostRuntime) {
    let mut replay = Replay {
        session: Session::new(),
    };
    stream::run(
        &mut rt.stdin(),
        &mut rt.stdout(),
        &mut rt.stderr(),
        b"replay",
        &mut replay,
        &mut io::buffer(),
    );
}
