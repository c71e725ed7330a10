// Events made, looked at, and as words.
ghost use Rattle.std.specs.Prelude.{◌≡◌, ◌/◌, ◌%◌, ◌^◌, ◌<◌, true, Some};
ghost use Rattle.frames.specs.Answers.{answer, or_refuse};
ghost use Rattle.payloads.specs.Ranges.{sort_fits, event_fits};
ghost use Rattle.payloads.specs.Events.{event_of, sort_code, sort_detail, sort_of, event_by, event_words, event_reads};
ghost use Rattle.payloads.specs.Texts.{event_text};
ghost use Rattle.payloads.specs.EventLaws.{event_back, event_only};
ghost use Rattle.std.proofs.Common.{rules};

use crate::event::LiftEvent;
use crate::parts::{halves, high_half, low_half, lower, raise};
use crate::sort::Sort;
use frames::payload::Payload;
use frames::refusal::Refusal;
use std::fmt;

// The numbers of the sorts, as the first word has them. An enum of them would name the three sorts once more, and is turned into a `Sort` only with a
// detail, which has to be in range: more than `From` can ask.
const ALARM_PRESSED: u32 = 1;

const DOOR_FAULT: u32 = 2;

const STOPPED: u32 = 3;

// Whether what a sort says is in range.
fn sort_fits(sort: Sort) -> bool
    ensures { result ≡ sort_fits sort }
{
    match sort {
        Sort::AlarmPressed => true,
        Sort::DoorFault { code } => 1 <= code && code <= 255,
        Sort::Stopped { floor } => -64 <= floor && floor <= 191,
    }
}

// Whether an event's parts are in range.
fn event_fits(lift: u32, sort: Sort) -> bool
    ensures { result ≡ event_fits lift sort }
{
    lift <= 65535 && sort_fits(sort)
}

// The event with these parts, if they are in range: as for a line, over parts of its own.
fn event_of(lift: u32, sort: Sort) -> Option<LiftEvent>
    ensures { result ≡ event_of lift sort }
{
    if event_fits(lift, sort) {
        Some(LiftEvent { lift, sort })
    } else {
        None
    }
}

// The number of a sort.
fn sort_code(sort: Sort) -> u32
    ensures code { result ≡ sort_code sort }
    ensures small { result < 4 }
{
    match sort {
        Sort::AlarmPressed => ALARM_PRESSED,
        Sort::DoorFault { .. } => DOOR_FAULT,
        Sort::Stopped { .. } => STOPPED,
    }
}

// What the second word says of a sort.
fn sort_detail(sort: Sort) -> u32
    requires { sort_fits sort ≡ true }
    ensures { result ≡ sort_detail sort }
{
    match sort {
        Sort::AlarmPressed => 0,
        Sort::DoorFault { code } => code,
        Sort::Stopped { floor } => raise(floor, 64),
    }
}

// The sort with that number and that detail, if there is one.
fn sort_of(code: u32, detail: u32) -> Option<Sort>
    requires { detail < 65536 }
    ensures { result ≡ sort_of code detail }
{
    match code {
        ALARM_PRESSED if detail == 0 => Some(Sort::AlarmPressed),
        DOOR_FAULT => Some(Sort::DoorFault { code: detail }),
        STOPPED => Some(Sort::Stopped {
            floor: lower(detail, 64),
        }),
        _ => None,
    }
}

// The event with these two words, if there is one. No sort has a detail above 255.
fn event_in(first: u32, detail: u32) -> Option<LiftEvent>
    ensures { result ≡ event_by (first % 2 ^ 16) (sort_of (first / 2 ^ 16) detail) }
{
    if detail > 255 {
        return None;
    }
    let sort = sort_of(high_half(first), detail)?;
    event_of(low_half(first), sort)
}

impl LiftEvent {
    // The event with these parts; refused where one is out of range.
    pub fn new(lift: u32, sort: Sort) -> Result<LiftEvent, Refusal>
        ensures { answer result ≡ or_refuse (event_of lift sort) 20 }
    {
        event_of(lift, sort).ok_or(Refusal::PartRange)
    }

    // The lift, 0 to 65,535.
    pub fn lift(self) -> u32
        ensures { result ≡ self.lift }
    {
        self.lift
    }

    // What happened there.
    pub fn sort(self) -> Sort
        ensures { result ≡ self.sort }
    {
        self.sort
    }
}

// Two words: the sort's number in bits 19-16 and the lift in bits 15-0; then the detail of the sort.
impl Payload for LiftEvent {
    const SIZE: usize = 2;

    ghost SIZE = { 2 };

    ghost words = { event_words };

    ghost reads = { event_reads };

    ghost some = { Prim.search rules };

    ghost few = { Prim.search rules };

    ghost counted = { Prim.search rules };

    ghost narrow = { Prim.search rules };

    ghost back = { event_back };

    ghost only = { event_only };

    fn word(self, i: usize) -> u32 {
        match i {
            0 => halves(sort_code(self.sort), self.lift),
            1 => sort_detail(self.sort),
            _ => 0,
        }
    }

    fn read(ws: &[u32]) -> Result<LiftEvent, Refusal> {
        let [first, detail] = ws else {
            return Err(Refusal::PayloadWords);
        };
        event_in(*first, *detail).ok_or(Refusal::PayloadWords)
    }
}

// As `lift=12 alarm`, `lift=12 door=7` or `lift=12 floor=-3`.
impl fmt::Display for LiftEvent {
    ghost output = { λ x. Some (event_text x) };

    fn fmt<W: fmt::Write>(&self, f: &mut fmt::Formatter<W>) -> fmt::Result {
        write!(f, "lift={} {}", self.lift, self.sort)
    }
}
