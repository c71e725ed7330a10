// Single words: the top 4 bits are the word's kind, the low 28 its value.
ghost use Rattle.std.specs.Prelude.{◌≡◌, ◌+◌, ◌*◌, ◌/◌, ◌%◌, ◌^◌, ◌<◌, ◌==◌};
ghost use Rattle.frames.specs.Answers.{answer, or_refuse};
ghost use Rattle.codec.specs.Layout.{kind_of};
ghost use Rattle.codec.specs.Words.{word, word_kind, word_value, head_word, head_sender, head_addressee, head_count, kind_code, field_code, kind_at, IsCode};

use crate::bits::{join, part};
use frames::frame::Body;
use frames::payload::Payload;
use frames::refusal::Refusal;

// The kind of a frame, as its head says it.
#[derive(Clone, Copy, PartialEq, Eq, Debug)]
pub enum Kind {
    ReqSlots = 1,
    Slots = 2,
    Token = 3,
    Ack = 4,
}

// What a word after the head holds: s, r, n, l, or a part of the payload.
#[derive(Clone, Copy, PartialEq, Eq, Debug)]
pub enum Field {
    Number = 8,
    Clock = 9,
    Count = 10,
    Low = 11,
    Payload = 12,
}

impl<P: Payload> From<Body<P>> for Kind {
    ghost from_gives = { λ body kind. kind ≡ kind_of body };

    fn from(body: Body<P>) -> Kind {
        match body {
            Body::ReqSlots { .. } => Kind::ReqSlots,
            Body::Slots { .. } => Kind::Slots,
            Body::Token { .. } => Kind::Token,
            Body::Ack { .. } => Kind::Ack,
        }
    }
}

impl From<Kind> for u32 {
    ghost from_gives = { λ kind n. IsCode (kind_code kind) n };

    fn from(kind: Kind) -> u32 {
        kind as u32
    }
}

impl From<Field> for u32 {
    ghost from_gives = { λ field n. IsCode (field_code field) n };

    fn from(field: Field) -> u32 {
        field as u32
    }
}

// The kind of frame that a head of that kind of word begins.
impl TryFrom<u32> for Kind {
    type Error = Refusal;

    ghost try_from_gives = { λ n r. answer r ≡ or_refuse (kind_at n) 13 };

    fn try_from(n: u32) -> Result<Kind, Refusal> {
        match n {
            1 => Ok(Kind::ReqSlots),
            2 => Ok(Kind::Slots),
            3 => Ok(Kind::Token),
            4 => Ok(Kind::Ack),
            _ => Err(Refusal::HeadKind),
        }
    }
}

// The word of a field.
pub(crate) fn field_word(field: Field, value: u64) -> u32
    requires { value < 2 ^ 28 }
    ensures { result ≡ word (field_code field) value }
{
    join(field.into(), 28, value as u32)
}

// The value of a word.
pub(crate) fn value_of(w: u32) -> u32
    ensures { result ≡ word_value w }
{
    part(w, 0, 28)
}

// Whether a word is of that kind of field.
pub(crate) fn is_field(w: u32, field: Field) -> bool
    ensures { result ≡ (word_kind w == field_code field) }
{
    w >> 28 == field.into()
}

// The first word of a frame.
#[derive(Clone, Copy)]
pub struct Head(pub u32);

impl Head {
    // The head of a frame of that kind, with `count` words to follow.
    pub(crate) fn new(kind: Kind, sender: u32, addressee: u32, count: usize) -> Head
        requires sender { sender < 256 }
        requires addressee { addressee < 256 }
        requires count { count < 4096 }
        ensures { result.0 ≡ head_word (kind_code kind) sender addressee count }
    {
        let from = join(kind.into(), 8, sender);
        let route = join(from, 8, addressee);
        Head(join(route, 12, count as u32))
    }

    // The kind of frame that it begins.
    pub(crate) fn kind(self) -> Result<Kind, Refusal>
        ensures { answer result ≡ or_refuse (kind_at (word_kind self.0)) 13 }
    {
        Kind::try_from(self.0 >> 28)
    }

    // The sender that it names.
    pub(crate) fn sender(self) -> u32
        ensures { result ≡ head_sender self.0 }
    {
        part(self.0, 20, 8)
    }

    // The addressee that it names.
    pub(crate) fn addressee(self) -> u32
        ensures { result ≡ head_addressee self.0 }
    {
        part(self.0, 12, 8)
    }

    // The count of words that it says will follow.
    pub(crate) fn count(self) -> usize
        ensures { result ≡ head_count self.0 }
    {
        part(self.0, 0, 12) as usize
    }
}
