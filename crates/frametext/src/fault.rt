// Why a text is not taken.
ghost use Rattle.std.specs.Prelude.{◌≡◌, Some};
ghost use Rattle.frametext.specs.Labels.{label_text};
ghost use Rattle.frametext.specs.declared.fault.Fault.TheVariants.{NoPayload};

use frames::refusal::Refusal;
use std::fmt;

// What stands before a number, as `s=` before 5 in `s=5`.
#[derive(Clone, Copy, PartialEq, Eq, Debug)]
pub enum Label {
    S,
    R,
    N,
    L,
    Place,
    Step,
    Lift,
    Door,
    Floor,
}

impl Label {
    // The text of a label. Stripping a prefix wants it as a `&str`, which printing does not give.
    pub(crate) fn text(self) -> &'static str
        ensures { result.now ≡ label_text self }
    {
        match self {
            Label::S => "s=",
            Label::R => "r=",
            Label::N => "n=",
            Label::L => "l=",
            Label::Place => "place=",
            Label::Step => "step=",
            Label::Lift => "lift=",
            Label::Door => "door=",
            Label::Floor => "floor=",
        }
    }
}

impl fmt::Display for Label {
    ghost output = { λ label. Some (label_text label) };

    fn fmt<W: fmt::Write>(&self, f: &mut fmt::Formatter<W>) -> fmt::Result {
        f.write_str(self.text())
    }
}

// What a text should have had at some place.
#[derive(Clone, Copy, PartialEq, Eq, Debug)]
pub enum Expected {
    Route,
    Kind,
    Number(Label),
    Sort,
    End,
}

// What was wrong with a text.
#[derive(Clone, Copy, PartialEq, Eq, Debug)]
pub enum Fault {
    // This was expected, and something else stood there.
    NotThere(Expected),
    // There is no such payload.
    NoPayload(Refusal),
}

impl From<Refusal> for Fault {
    ghost from_gives = { λ refusal fault. fault ≡ NoPayload refusal };

    fn from(refusal: Refusal) -> Fault {
        Fault::NoPayload(refusal)
    }
}

impl fmt::Display for Expected {
    fn fmt<W: fmt::Write>(&self, f: &mut fmt::Formatter<W>) -> fmt::Result {
        match self {
            Expected::Route => f.write_str("SENDER>ADDRESSEE"),
            Expected::Kind => f.write_str("REQSLOTS, SLOTS, TOKEN or ACK"),
            Expected::Number(label) => write!(f, "{label}NUMBER"),
            Expected::Sort => f.write_str("alarm, door=NUMBER or floor=NUMBER"),
            Expected::End => f.write_str("the end of the line"),
        }
    }
}
