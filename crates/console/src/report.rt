// What happened, as text.
use crate::player::{Outcome, Strays, Totals};
use crate::script::{Bottom, Change, MOST_LAYERS, MOST_ROOM, PayloadKind, Pile, Wanted};
use std::fmt;
use std::fmt::Display;

impl fmt::Display for Wanted {
    fn fmt<W: fmt::Write>(&self, f: &mut fmt::Formatter<W>) -> fmt::Result {
        match self {
            Wanted::Text => f.write_str("text in UTF-8"),
            Wanted::Command => f.write_str("channel, payload, put, take or show"),
            Wanted::PayloadKind => f.write_str("line or event"),
            Wanted::Bottom => f.write_str("line ROOM or wild ROOM SEED"),
            Wanted::Room => write!(f, "ROOM from 0 to {MOST_ROOM}"),
            Wanted::Seed => f.write_str("SEED below 2^64"),
            Wanted::Layer => f.write_str("repeating or holding"),
            Wanted::FewLayers => write!(f, "at most {MOST_LAYERS} layers"),
            Wanted::Channel => f.write_str("channel PILE first"),
            Wanted::Part(expected) => write!(f, "{expected}"),
        }
    }
}

impl fmt::Display for Bottom {
    fn fmt<W: fmt::Write>(&self, f: &mut fmt::Formatter<W>) -> fmt::Result {
        match self {
            Bottom::Line { room } => write!(f, "line {room}"),
            Bottom::Wild { room, seed } => write!(f, "wild {room} {seed}"),
        }
    }
}

impl fmt::Display for Pile {
    fn fmt<W: fmt::Write>(&self, f: &mut fmt::Formatter<W>) -> fmt::Result {
        write!(f, "{}", self.bottom)?;
        for layer in self.layers.iter().flatten() {
            write!(f, " {layer}")?;
        }
        Ok(())
    }
}

impl fmt::Display for PayloadKind {
    fn fmt<W: fmt::Write>(&self, f: &mut fmt::Formatter<W>) -> fmt::Result {
        match self {
            PayloadKind::Line => f.write_str("line"),
            PayloadKind::Event => f.write_str("event"),
        }
    }
}

// The channel as it now stands, or what tokens now carry.
impl fmt::Display for Change {
    fn fmt<W: fmt::Write>(&self, f: &mut fmt::Formatter<W>) -> fmt::Result {
        match self {
            Change::Channel(pile) => write!(f, "channel {pile}"),
            Change::Payload(kind) => write!(f, "payload {kind}, no channel"),
        }
    }
}

impl fmt::Display for Totals {
    fn fmt<W: fmt::Write>(&self, f: &mut fmt::Formatter<W>) -> fmt::Result {
        write!(
            f,
            "put {}, repeated {}, taken {}, lost {}",
            self.put, self.repeated, self.taken, self.lost
        )
    }
}

// Each copy on a line of its own.
impl<F: Display> fmt::Display for Strays<F> {
    fn fmt<W: fmt::Write>(&self, f: &mut fmt::Formatter<W>) -> fmt::Result {
        for frame in &self.lost {
            write!(f, "\n  lost {frame}")?;
        }
        for frame in &self.repeated {
            write!(f, "\n  repeated {frame}")?;
        }
        Ok(())
    }
}

impl<F: Display> fmt::Display for Outcome<F> {
    fn fmt<W: fmt::Write>(&self, f: &mut fmt::Formatter<W>) -> fmt::Result {
        match self {
            Outcome::Put { waiting, strays } => write!(f, "put, {waiting} waiting{strays}"),
            Outcome::Took {
                frame: Some(frame),
                strays,
            } => write!(f, "took {frame}{strays}"),
            Outcome::Took {
                frame: None,
                strays,
            } => write!(f, "took none{strays}"),
            Outcome::Shown { waiting, totals } => {
                write!(f, "{} waiting", waiting.len())?;
                for frame in waiting {
                    write!(f, "\n  {frame}")?;
                }
                write!(f, "\n{totals}")
            }
        }
    }
}
