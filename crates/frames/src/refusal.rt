// Why a call says no.
ghost use Rattle.std.specs.Prelude.{◌≡◌, Some};
ghost use Rattle.frames.specs.Answers.{number_of};
ghost use Rattle.frames.specs.Texts.{name_of, refusal_text};

use std::error::Error;
use std::fmt;

// Every refusal of the engine. A call that several refusals meet gives the one with the lowest number.
#[derive(Clone, Copy, PartialEq, Eq, Debug)]
pub enum Refusal {
    // The node's own number is above 7.
    OwnNumber = 1,
    // The ahead count is outside 1 to 8.
    AheadCount = 2,
    // The payload cells are not 256.
    CellCount = 3,
    // The peer is above 7, or is the node itself.
    Peer = 4,
    // The frame is for another node.
    Addressee = 5,
    // A field of the frame, or s + n, is above the last clock.
    PastLastClock = 6,
    // A request of slots has l above s, or s + n above l + 32.
    RequestWindow = 7,
    // Slots for the next number of the record reach past its low + 32.
    SlotsWindow = 8,
    // Slots for the next number of the record have another receiver clock than its envelopes.
    SlotsClock = 9,
    // The clock has no numbers left for it.
    ClockSpent = 10,
    // The window of the record is full.
    WindowFull = 11,
    // The run has no word.
    EmptyRun = 12,
    // The head's kind is outside 1 to 4.
    HeadKind = 13,
    // The head's count is not the one of its kind of frame.
    HeadCount = 14,
    // The run is shorter than its head says.
    ShortRun = 15,
    // A word's kind does not fit its place.
    WordKind = 16,
    // No value writes the payload words.
    PayloadWords = 17,
    // A node number is above 255, or a field is above the last clock.
    TooLarge = 18,
    // The run is too short for the frame.
    NoRoom = 19,
    // A part of a payload is outside its range.
    PartRange = 20,
}

impl Refusal {
    // The number of the refusal, 1 to 20, which never changes.
    pub fn number(self) -> u8
        ensures { result ≡ number_of self }
    {
        self as u8
    }

    // The name of the refusal. Written out, since no clause speaks of what the derived `Debug` writes.
    fn name(self) -> &'static str
        ensures { result.now ≡ name_of self }
    {
        match self {
            Refusal::OwnNumber => "OwnNumber",
            Refusal::AheadCount => "AheadCount",
            Refusal::CellCount => "CellCount",
            Refusal::Peer => "Peer",
            Refusal::Addressee => "Addressee",
            Refusal::PastLastClock => "PastLastClock",
            Refusal::RequestWindow => "RequestWindow",
            Refusal::SlotsWindow => "SlotsWindow",
            Refusal::SlotsClock => "SlotsClock",
            Refusal::ClockSpent => "ClockSpent",
            Refusal::WindowFull => "WindowFull",
            Refusal::EmptyRun => "EmptyRun",
            Refusal::HeadKind => "HeadKind",
            Refusal::HeadCount => "HeadCount",
            Refusal::ShortRun => "ShortRun",
            Refusal::WordKind => "WordKind",
            Refusal::PayloadWords => "PayloadWords",
            Refusal::TooLarge => "TooLarge",
            Refusal::NoRoom => "NoRoom",
            Refusal::PartRange => "PartRange",
        }
    }
}

// As `16 WordKind`.
impl fmt::Display for Refusal {
    ghost output = { λ e. Some (refusal_text e) };

    fn fmt<W: fmt::Write>(&self, f: &mut fmt::Formatter<W>) -> fmt::Result {
        write!(f, "{} {}", self.number(), self.name())
    }
}

impl Error for Refusal {}
