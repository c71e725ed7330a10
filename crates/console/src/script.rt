// The commands of a scene, as they are written: a line of input to a command.
use channels::layered::Layer;
use frames::frame::Frame;
use frames::refusal::Refusal;
use frametext::fault::{Expected, Fault};
use frametext::frame_text::parse_frame;
use frametext::payload_text::PayloadText;
use frametext::{ends, next_word};
use std::alloc::{AllocError, Global};
use std::io;
use std::io::ErrorKind;
use std::str::FromStr;

// The most frames that a table has room for.
pub const MOST_ROOM: usize = 1000;

// The most layers that a pile has.
pub const MOST_LAYERS: usize = 3;

// What a pile stands on.
#[derive(Clone, Copy)]
pub enum Bottom {
    Line { room: usize },
    Wild { room: usize, seed: u64 },
}

// What a channel is made of: its bottom, and the layers over it, the lowest first. A place of the list may have none.
#[derive(Clone, Copy)]
pub struct Pile {
    pub bottom: Bottom,
    pub layers: [Option<Layer>; MOST_LAYERS],
}

// What tokens carry.
#[derive(Clone, Copy)]
pub enum PayloadKind {
    Line,
    Event,
}

// What ends the present channel: another one, or another kind of payload and no channel.
#[derive(Clone, Copy)]
pub enum Change {
    Channel(Pile),
    Payload(PayloadKind),
}

// What is done with the present channel.
#[derive(Drop)]
pub enum Action<F> {
    Put(F),
    Take,
    Show,
}

// What a line says to do.
#[derive(Drop)]
pub enum Command<F> {
    Change(Change),
    Action(Action<F>),
}

// What a line should have had.
#[derive(Clone, Copy)]
pub enum Wanted {
    Text,
    Command,
    PayloadKind,
    Bottom,
    Room,
    Seed,
    Layer,
    FewLayers,
    Channel,
    Part(Expected),
}

// Why a line says nothing to do. `framewords` has one like it over its own `Wanted`: in a library a generic enum of both would owe contracts and edits for each
// `From`, and its `From<W>` would overlap with the `From<Refusal>` there.
#[derive(Clone, Copy)]
pub enum Unread {
    // This was wanted, and something else stood there.
    Unclear(Wanted),
    // There is no such payload.
    Refused(Refusal),
    // Memory ran out, or the input cannot be read.
    Failed(io::Error),
}

impl From<Wanted> for Unread {
    fn from(wanted: Wanted) -> Unread {
        Unread::Unclear(wanted)
    }
}

impl From<Fault> for Unread {
    fn from(fault: Fault) -> Unread {
        match fault {
            Fault::NotThere(expected) => Unread::Unclear(Wanted::Part(expected)),
            Fault::NoPayload(refusal) => Unread::Refused(refusal),
        }
    }
}

// A line that is no text was read all the same.
impl From<io::Error> for Unread {
    fn from(e: io::Error) -> Unread {
        match e.kind() {
            ErrorKind::InvalidData => Unread::Unclear(Wanted::Text),
            _ => Unread::Failed(e),
        }
    }
}

impl From<AllocError> for Unread {
    fn from(e: AllocError) -> Unread {
        Unread::Failed(io::Error::from(e))
    }
}

// The room that a word gives.
fn parse_room(word: &str) -> Result<usize, Wanted> {
    let room = word.parse::<usize>().ok();
    room.filter(|room| *room <= MOST_ROOM).ok_or(Wanted::Room)
}

// The bottom that a text begins with, and the text behind it.
fn next_bottom(text: &str) -> Result<(Bottom, &str), Wanted> {
    let (kind, rest) = next_word(text);
    let (room, rest) = next_word(rest);
    match kind {
        "line" => {
            let room = parse_room(room)?;
            Ok((Bottom::Line { room }, rest))
        }
        "wild" => {
            let (seed, rest) = next_word(rest);
            let room = parse_room(room)?;
            let seed = seed.parse::<u64>().map_err(|_| Wanted::Seed)?;
            Ok((Bottom::Wild { room, seed }, rest))
        }
        _ => Err(Wanted::Bottom),
    }
}

// The layer that a word names. Not `FromStr`: that would stand in the library, public, with an error type, a contract and an edit for these three arms.
fn parse_layer(word: &str) -> Result<Layer, Wanted> {
    match word {
        "repeating" => Ok(Layer::Repeating),
        "holding" => Ok(Layer::Holding),
        _ => Err(Wanted::Layer),
    }
}

// As `wild 16 7 repeating holding`, from the bottom up.
impl FromStr for Pile {
    type Err = Wanted;

    fn from_str(text: &str) -> Result<Pile, Wanted> {
        let (bottom, rest) = next_bottom(text)?;
        let mut layers = [None; MOST_LAYERS];
        let mut words = rest.split_whitespace();
        for (layer, word) in layers.iter_mut().zip(words.by_ref()) {
            *layer = Some(parse_layer(word)?);
        }
        if words.next().is_some() {
            return Err(Wanted::FewLayers);
        }
        Ok(Pile { bottom, layers })
    }
}

impl FromStr for PayloadKind {
    type Err = Unread;

    fn from_str(text: &str) -> Result<PayloadKind, Unread> {
        let (word, rest) = next_word(text);
        let kind = match word {
            "line" => PayloadKind::Line,
            "event" => PayloadKind::Event,
            _ => return Err(Wanted::PayloadKind.into()),
        };
        ends(rest)?;
        Ok(kind)
    }
}

// The command that a text says: its words one space apart, and nothing around them.
pub fn parse_command<P: PayloadText>(text: &str) -> Result<Command<Frame<P>>, Unread> {
    let (word, rest) = next_word(text);
    match word {
        "channel" => Ok(Command::Change(Change::Channel(rest.parse()?))),
        "payload" => Ok(Command::Change(Change::Payload(rest.parse()?))),
        "put" => Ok(Command::Action(Action::Put(parse_frame(rest)?))),
        "take" => {
            ends(rest)?;
            Ok(Command::Action(Action::Take))
        }
        "show" => {
            ends(rest)?;
            Ok(Command::Action(Action::Show))
        }
        _ => Err(Unread::Unclear(Wanted::Command)),
    }
}

// The same text with one space between its words, and none around them: word by word, since a list of them would take many times the memory of a line of
// short words. `framewords` has the same: in a library it would owe a contract, and no clause of the standard library says which words splitting gives.
fn squeezed(text: &str, heap: Global) -> Result<String, AllocError> {
    let mut out = String::new(heap);
    for word in text.split_whitespace() {
        if !out.is_empty() {
            out.push_str(" ")?;
        }
        out.push_str(word)?;
    }
    Ok(out)
}

// The text of a line of input, its words one space apart; none in a blank line or a comment.
pub fn read_line(line: io::Result<String>, heap: Global) -> Result<Option<String>, Unread> {
    let text = squeezed(line?.as_str(), heap)?;
    if text.is_empty() || text.as_str().starts_with('#') {
        return Ok(None);
    }
    Ok(Some(text))
}
