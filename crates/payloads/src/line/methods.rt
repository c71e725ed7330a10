// Lines made, looked at, and as words.
ghost use Rattle.std.specs.Prelude.{◌≡◌, Some};
ghost use Rattle.frames.specs.Answers.{answer, or_refuse};
ghost use Rattle.payloads.specs.Ranges.{line_fits};
ghost use Rattle.payloads.specs.Lines.{line_of, line_words, line_reads};
ghost use Rattle.payloads.specs.Texts.{line_text};
ghost use Rattle.payloads.specs.LineLaws.{line_back, line_only};
ghost use Rattle.std.proofs.Common.{rules};

use crate::line::ProfileLine;
use crate::parts::{halves, high_half, low_half, lower, raise};
use frames::payload::Payload;
use frames::refusal::Refusal;
use std::fmt;

// Whether a line's parts are in range.
fn line_fits(place: u32, step: i32) -> bool
    ensures { result ≡ line_fits place step }
{
    place <= 1023 && -32768 <= step && step <= 32767
}

// The line with these parts, if they are in range. Each kind of payload has such a function: the parts and their ranges are its own. Not `then`: the proof that
// its closure makes a line in range does not close.
fn line_of(place: u32, step: i32) -> Option<ProfileLine>
    ensures { result ≡ line_of place step }
{
    if line_fits(place, step) {
        Some(ProfileLine { place, step })
    } else {
        None
    }
}

impl ProfileLine {
    // The line with these parts; refused where one is out of range.
    pub fn new(place: u32, step: i32) -> Result<ProfileLine, Refusal>
        ensures { answer result ≡ or_refuse (line_of place step) 20 }
    {
        line_of(place, step).ok_or(Refusal::PartRange)
    }

    // The place in the profile, 0 to 1,023.
    pub fn place(self) -> u32
        ensures { result ≡ self.place }
    {
        self.place
    }

    // The step, -32,768 to 32,767.
    pub fn step(self) -> i32
        ensures { result ≡ self.step }
    {
        self.step
    }
}

// One word: the place in bits 25-16, the step, counted from -32,768 on, in bits 15-0.
impl Payload for ProfileLine {
    const SIZE: usize = 1;

    ghost SIZE = { 1 };

    ghost words = { line_words };

    ghost reads = { line_reads };

    ghost some = { Prim.search rules };

    ghost few = { Prim.search rules };

    ghost counted = { Prim.search rules };

    ghost narrow = { Prim.search rules };

    ghost back = { line_back };

    ghost only = { line_only };

    fn word(self, i: usize) -> u32 {
        if i == 0 {
            halves(self.place, raise(self.step, 32768))
        } else {
            0
        }
    }

    fn read(ws: &[u32]) -> Result<ProfileLine, Refusal> {
        let [w] = ws else {
            return Err(Refusal::PayloadWords);
        };
        line_of(high_half(*w), lower(low_half(*w), 32768)).ok_or(Refusal::PayloadWords)
    }
}

// As `place=5 step=-2`.
impl fmt::Display for ProfileLine {
    ghost output = { λ x. Some (line_text x) };

    fn fmt<W: fmt::Write>(&self, f: &mut fmt::Formatter<W>) -> fmt::Result {
        write!(f, "place={} step={}", self.place, self.step)
    }
}
