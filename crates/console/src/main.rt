// Channels played by commands on standard input.
#![tactic(auto)]

ghost use Rattle.console.specs.Input.{ReadsOn};

mod pile;
mod player;
mod report;
mod script;
mod session;

use payloads::event::LiftEvent;
use payloads::line::ProfileLine;
use pile::play_on;
use script::{Change, PayloadKind, Pile};
use session::Session;
use std::io;

// Follows commands up to the one that changes the channel or the kind of payload; none at the end of the input. A kind of payload is a type, so each has
// an arm: a closure for each would be no shorter.
fn follow(
    kind: PayloadKind,
    pile: Option<Pile>,
    session: &mut Session,
) -> io::Result<Option<Change>>
    ensures { ReadsOn session.old result session.new }
{
    match kind {
        PayloadKind::Line => play_on::<ProfileLine>(pile, session),
        PayloadKind::Event => play_on::<LiftEvent>(pile, session),
    }
}

fn main(rt: HostRuntime) -> io::Result<()> {
    let mut session = Session::new(rt)?;
    let mut kind = PayloadKind::Line;
    let mut pile = None;
    while let Some(change) = follow(kind, pile, &mut session)? {
        session.tell(change)?;
        match change {
            Change::Channel(named) => pile = Some(named),
            Change::Payload(named) => {
                kind = named;
                pile = None;
            }
        }
    }
    Ok(())
}
