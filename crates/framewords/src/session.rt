// Commands on words and frames, one to a line, each answered by a line of text.
use crate::unanswered::{Unanswered, Wanted};
use codec::{read_frame, write_frame};
use frametext::frame_text::{parse_frame, show_frame};
use frametext::payload_text::PayloadText;
use frametext::word_text::{parse_word, show_words};
use frametext::{ends, next_word};
use payloads::event::LiftEvent;
use payloads::line::ProfileLine;
use std::alloc::{AllocError, Global};
use std::io;

// The most words that a frame takes.
const LONGEST: usize = 7;

// The same text with one space between its words, and none around them: word by word, since a list of them would take many times the memory of a line of
// short words. `console` has the same: in a library it would owe a contract, and no clause of the standard library says which words splitting gives.
fn squeezed(text: &str, heap: Global) -> Result<String, AllocError> {
    let mut out = String::new(heap);
    for word in text.split_whitespace() {
        if !out.is_empty() {
            out.push_str(" ")?;
        }
        out.push_str(word)?;
    }
    Ok(out)
}

// The room that frames are written into, in words.
#[derive(Drop)]
pub struct Session {
    heap: Global,
    room: usize,
}

impl Session {
    // A session with room for every frame.
    pub fn new(heap: Global) -> Session {
        Session {
            heap,
            room: LONGEST,
        }
    }

    // The answer to words that should be a frame. Its text is made by `show_frame`, whose contract says that it is the documented one and reads back.
    fn read<P: PayloadText>(&self, text: &str) -> Result<String, Unanswered> {
        let words = text.split_whitespace().map(parse_word);
        let words: Vec<u32> = words.collect::<Option<_>>(self.heap)?.ok_or(Wanted::Words)?;
        let (frame, used) = read_frame::<P>(words.as_slice())?;
        let frame = show_frame(frame, self.heap)?;
        Ok(format!(in self.heap; "{frame}, {used} words")?)
    }

    // The answer to a text that should be a frame: its words.
    fn write<P: PayloadText>(&self, text: &str) -> Result<String, Unanswered> {
        let frame = parse_frame::<P>(text)?;
        // An array cut to the room, and no `Vec` as long as that: the words are few, and a command takes no memory for them.
        let mut run = [0; LONGEST];
        let run = &mut run[..self.room.min(LONGEST)];
        let count = write_frame(frame, run)?;
        Ok(show_words(&run[..count], self.heap)?)
    }

    // The answer to a new room.
    fn set_room(&mut self, number: &str, rest: &str) -> Result<String, Unanswered> {
        let room = number.parse::<usize>().map_err(|_| Wanted::Room)?;
        ends(rest)?;
        let room = room.min(LONGEST);
        self.room = room;
        Ok(format!(in self.heap; "room for {room} words")?)
    }

    // The answer to a command. A kind of payload is a type, so each has its arms: a closure for each would be no shorter.
    fn answer_command(&mut self, text: &str) -> Result<String, Unanswered> {
        let (command, rest) = next_word(text);
        let (first, rest) = next_word(rest);
        match (command, first) {
            ("read", "line") => self.read::<ProfileLine>(rest),
            ("read", "event") => self.read::<LiftEvent>(rest),
            ("write", "line") => self.write::<ProfileLine>(rest),
            ("write", "event") => self.write::<LiftEvent>(rest),
            ("read" | "write", _) => Err(Wanted::PayloadKind.into()),
            ("room", number) => self.set_room(number, rest),
            _ => Err(Wanted::Command.into()),
        }
    }

    // The answer to one line of input; none to a blank line or a comment.
    pub fn answer(&mut self, line: io::Result<String>) -> Result<Option<String>, Unanswered> {
        let text = squeezed(line?.as_str(), self.heap)?;
        let text = text.as_str();
        if text.is_empty() || text.starts_with('#') {
            return Ok(None);
        }
        self.answer_command(text).map(Some)
    }
}
