// Payloads as text.
ghost use Rattle.std.specs.Prelude.{◌≡◌, ℕ, List, Some, IfOk, string_bytes};
ghost use Rattle.payloads.specs.Texts.{line_text, event_text};
ghost use Rattle.frametext.specs.Told.{Told, told, tells};
ghost use Rattle.frametext.specs.Payloads.{line_in, sort_in, event_in};
ghost use Rattle.frametext.specs.Spelled.{line_respelled, event_respelled};
ghost use Rattle.std.proofs.Common.{rules};

use crate::fault::{Expected, Fault, Label};
use crate::scan::{field, next_word, number, strip};
use frames::payload::Payload;
use payloads::event::LiftEvent;
use payloads::line::ProfileLine;
use payloads::sort::Sort;
use std::alloc::{AllocError, Global};
use std::fmt::Display;

// A kind of payload that has a text form: the one that it prints.
pub trait PayloadText: Payload + Display {
    // the text of a value
    ghost spelling: { Self → List ℕ };

    // what a text tells of a value
    ghost spelled: { List ℕ → Told Self };

    // The text of a value in memory.
    fn show(self, heap: Global) -> Result<String, AllocError>
        ensures { IfOk result (λ s. string_bytes s ≡ spelling self) }
    {
        format!(in heap; "{self}")
    }

    // The value that a text shows.
    fn parse(text: &str) -> Result<Self, Fault>
        ensures { told result ≡ spelled text.now };

    // each value prints its text
    ghost shown: { (x : Self) → Self.output x ≡ Some (spelling x) };

    // and reads back from it
    ghost respelled: { (x : Self) → spelled (spelling x) ≡ tells x };
}

// As `place=5 step=-2`.
impl PayloadText for ProfileLine {
    ghost spelling = { line_text };

    ghost spelled = { line_in };

    ghost shown = { Prim.search rules };

    ghost respelled = { line_respelled };

    fn parse(text: &str) -> Result<ProfileLine, Fault> {
        let (place, step) = next_word(text);
        let place = field(place, Label::Place)?;
        let step = field(step, Label::Step)?;
        Ok(ProfileLine::new(place, step)?)
    }
}

// The sort of an event, as `alarm`, `door=7` or `floor=-3`.
fn parse_sort(text: &str) -> Result<Sort, Fault>
    ensures { told result ≡ sort_in text.now }
{
    if text == "alarm" {
        return Ok(Sort::AlarmPressed);
    }
    if let Some(code) = strip(text, Label::Door.text()) {
        let code = number(code, Expected::Number(Label::Door))?;
        return Ok(Sort::DoorFault { code });
    }
    let floor = strip(text, Label::Floor.text()).ok_or(Fault::NotThere(Expected::Sort))?;
    let floor = number(floor, Expected::Number(Label::Floor))?;
    Ok(Sort::Stopped { floor })
}

// As `lift=12 alarm`, `lift=12 door=7` or `lift=12 floor=-3`.
impl PayloadText for LiftEvent {
    ghost spelling = { event_text };

    ghost spelled = { event_in };

    ghost shown = { Prim.search rules };

    ghost respelled = { event_respelled };

    fn parse(text: &str) -> Result<LiftEvent, Fault> {
        let (lift, sort) = next_word(text);
        let lift = field(lift, Label::Lift)?;
        let sort = parse_sort(sort)?;
        Ok(LiftEvent::new(lift, sort)?)
    }
}
