// Why a command has no answer.
use frames::refusal::Refusal;
use frametext::fault::{Expected, Fault};
use std::alloc::AllocError;
use std::io::ErrorKind;
use std::{fmt, io};

// What a command should have had.
#[derive(Clone, Copy)]
pub enum Wanted {
    Text,
    Command,
    PayloadKind,
    Words,
    Room,
    Part(Expected),
}

impl fmt::Display for Wanted {
    fn fmt<W: fmt::Write>(&self, f: &mut fmt::Formatter<W>) -> fmt::Result {
        match self {
            Wanted::Text => f.write_str("text in UTF-8"),
            Wanted::Command => f.write_str("read, write or room"),
            Wanted::PayloadKind => f.write_str("line or event"),
            Wanted::Words => f.write_str("words of at most 8 hexadecimal digits"),
            Wanted::Room => f.write_str("room NUMBER"),
            Wanted::Part(expected) => write!(f, "{expected}"),
        }
    }
}

// Why a command has no answer. `console` has one like it over its own `Wanted`: in a library a generic enum of both would owe contracts and edits for each
// `From`, and its `From<W>` would overlap with `From<Refusal>`.
#[derive(Drop)]
pub enum Unanswered {
    // This was wanted, and something else stood there.
    Unclear(Wanted),
    // There is no such payload or frame, or no room for it.
    Refused(Refusal),
    // Memory ran out, or the input cannot be read.
    Failed(io::Error),
}

impl From<Wanted> for Unanswered {
    fn from(wanted: Wanted) -> Unanswered {
        Unanswered::Unclear(wanted)
    }
}

impl From<Refusal> for Unanswered {
    fn from(refusal: Refusal) -> Unanswered {
        Unanswered::Refused(refusal)
    }
}

impl From<Fault> for Unanswered {
    fn from(fault: Fault) -> Unanswered {
        match fault {
            Fault::NotThere(expected) => Unanswered::Unclear(Wanted::Part(expected)),
            Fault::NoPayload(refusal) => Unanswered::Refused(refusal),
        }
    }
}

// A line that is no text was read all the same.
impl From<io::Error> for Unanswered {
    fn from(e: io::Error) -> Unanswered {
        match e.kind() {
            ErrorKind::InvalidData => Unanswered::Unclear(Wanted::Text),
            _ => Unanswered::Failed(e),
        }
    }
}

impl From<AllocError> for Unanswered {
    fn from(e: AllocError) -> Unanswered {
        Unanswered::Failed(io::Error::from(e))
    }
}
