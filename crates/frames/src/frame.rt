// What goes over a channel.
ghost use Rattle.std.specs.Prelude.{◌≡◌};
ghost use Rattle.frames.specs.Texts.{body_shown, frame_shown};

use std::fmt;

// The last clock, 2^28 - 1, which is also the largest field that a word can hold.
pub const LAST_CLOCK: u64 = 0x0fff_ffff;

// The four kinds of body, with the numbers s, n and l and the receiver clock r as the protocol names them.
#[derive(Clone, Copy, PartialEq, Eq, Debug)]
pub enum Body<P> {
    // Asks for the slots of the n numbers from s on; l is the sender's lowest number in use.
    ReqSlots { s: u64, n: u64, l: u64 },
    // Grants the n numbers from s on, under receiver clock r.
    Slots { s: u64, r: u64, n: u64 },
    // Carries the message of number s, granted under receiver clock r.
    Token { s: u64, r: u64, payload: P },
    // Acknowledges the token of number s and receiver clock r.
    Ack { s: u64, r: u64 },
}

// A body on its way from one node to another.
#[derive(Clone, Copy, PartialEq, Eq, Debug)]
pub struct Frame<P> {
    pub sender: u32,
    pub addressee: u32,
    pub body: Body<P>,
}

// As `ACK s=1 r=2`.
impl<P: fmt::Display> fmt::Display for Body<P> {
    ghost output = { body_shown P.output };

    fn fmt<W: fmt::Write>(&self, f: &mut fmt::Formatter<W>) -> fmt::Result {
        match self {
            Body::ReqSlots { s, n, l } => write!(f, "REQSLOTS s={s} n={n} l={l}"),
            Body::Slots { s, r, n } => write!(f, "SLOTS s={s} r={r} n={n}"),
            Body::Token { s, r, payload } => write!(f, "TOKEN s={s} r={r} {payload}"),
            Body::Ack { s, r } => write!(f, "ACK s={s} r={r}"),
        }
    }
}

// As `0>1 ACK s=1 r=2`.
impl<P: fmt::Display> fmt::Display for Frame<P> {
    ghost output = { frame_shown P.output };

    fn fmt<W: fmt::Write>(&self, f: &mut fmt::Formatter<W>) -> fmt::Result {
        write!(f, "{}>{} {}", self.sender, self.addressee, self.body)
    }
}
