// Frames as text, as `0>1 REQSLOTS s=0 n=3 l=0`.
ghost use Rattle.std.specs.Prelude.{◌≡◌, IfOk, Some, string_bytes};
ghost use Rattle.frametext.specs.Told.{told, tells};
ghost use Rattle.frametext.specs.Labels.{label_text};
ghost use Rattle.frametext.specs.Numbers.{field_in};
ghost use Rattle.frames.specs.Texts.{frame_shown, frame_text};
ghost use Rattle.frametext.specs.Frames.{Held};
ghost use Rattle.frametext.specs.Frames.{two_in, behind_two, three_in, route_in, req_slots_in, slots_in, token_in, ack_in, kind_in, frame_in};

use crate::fault::{Expected, Fault, Label};
use crate::payload_text::PayloadText;
use crate::scan::{cut, ends, field, next_word, number};
use frames::frame::{Body, Frame};
use std::alloc::{AllocError, Global};

// The text of a frame in memory: what the frame prints, which reads back as the frame, whatever numbers its types hold.
#[tactic(auto, using(crate::proofs::Framed::frame_known))]
pub fn show_frame<P: PayloadText>(frame: Frame<P>, heap: Global) -> Result<String, AllocError>
    ensures text { IfOk result (λ s. string_bytes s ≡ frame_text P.spelling frame) }
    ensures printed { frame_shown P.output frame ≡ Some (frame_text P.spelling frame) }
    ensures reads_back { Held frame → frame_in P.spelled (frame_text P.spelling frame) ≡ tells frame }
{
    format!(in heap; "{frame}")
}

// The number behind a label, of 64 bits as the fields of a frame are. For `u64` the contract of `field` comes to `field_in 64`: said here once, it need not be
// found in each proof below.
fn frame_field(word: &str, label: Label) -> Result<u64, Fault>
    ensures { told result ≡ field_in 64 (label_text label) word.now }
{
    field(word, label)
}

// The field s, and the field behind it.
fn two_fields(text: &str, second: Label) -> Result<(u64, u64), Fault>
    ensures { told result ≡ two_in (label_text second) text.now }
{
    let (first, rest) = next_word(text);
    let (word, _) = next_word(rest);
    let s = frame_field(first, Label::S)?;
    let x = frame_field(word, second)?;
    Ok((s, x))
}

// The text behind its first two words. It looks for them once more: given back by `two_fields` it would be a third value of each definition.
fn behind_two(text: &str) -> &str
    ensures { result.now ≡ behind_two text.now }
{
    let (_, rest) = next_word(text);
    let (_, rest) = next_word(rest);
    rest
}

// The field s, the two fields behind it, and nothing more.
fn three_fields(text: &str, second: Label, third: Label) -> Result<(u64, u64, u64), Fault>
    ensures { told result ≡ three_in (label_text second) (label_text third) text.now }
{
    let (s, x) = two_fields(text, second)?;
    let (word, rest) = next_word(behind_two(text));
    let y = frame_field(word, third)?;
    ends(rest)?;
    Ok((s, x, y))
}

fn parse_req_slots<P: PayloadText>(text: &str) -> Result<Body<P>, Fault>
    ensures { told result ≡ req_slots_in P.spelled text.now }
{
    let (s, n, l) = three_fields(text, Label::N, Label::L)?;
    Ok(Body::ReqSlots { s, n, l })
}

fn parse_slots<P: PayloadText>(text: &str) -> Result<Body<P>, Fault>
    ensures { told result ≡ slots_in P.spelled text.now }
{
    let (s, r, n) = three_fields(text, Label::R, Label::N)?;
    Ok(Body::Slots { s, r, n })
}

fn parse_token<P: PayloadText>(text: &str) -> Result<Body<P>, Fault>
    ensures { told result ≡ token_in P.spelled text.now }
{
    let (s, r) = two_fields(text, Label::R)?;
    let payload = P::parse(behind_two(text))?;
    Ok(Body::Token { s, r, payload })
}

fn parse_ack<P: PayloadText>(text: &str) -> Result<Body<P>, Fault>
    ensures { told result ≡ ack_in P.spelled text.now }
{
    let (s, r) = two_fields(text, Label::R)?;
    ends(behind_two(text))?;
    Ok(Body::Ack { s, r })
}

// The body of that kind that a text shows. A match, as in the codec: a table would name the same four kinds.
#[tactic(auto, using(crate::proofs::Framed::other_kind))]
fn parse_kind<P: PayloadText>(kind: &str, text: &str) -> Result<Body<P>, Fault>
    ensures { told result ≡ kind_in P.spelled kind.now text.now }
{
    match kind {
        "REQSLOTS" => parse_req_slots(text),
        "SLOTS" => parse_slots(text),
        "TOKEN" => parse_token(text),
        "ACK" => parse_ack(text),
        _ => Err(Fault::NotThere(Expected::Kind)),
    }
}

// The sender and the addressee, as `0>1`.
fn parse_route(word: &str) -> Result<(u32, u32), Fault>
    ensures { told result ≡ route_in word.now }
{
    let (from, to) = cut(word, '>').ok_or(Fault::NotThere(Expected::Route))?;
    let sender = number(from, Expected::Route)?;
    let addressee = number(to, Expected::Route)?;
    Ok((sender, addressee))
}

// The frame that a text shows: its words one space apart, and nothing around them.
pub fn parse_frame<P: PayloadText>(text: &str) -> Result<Frame<P>, Fault>
    ensures { told result ≡ frame_in P.spelled text.now }
{
    let (route, rest) = next_word(text);
    let (kind, rest) = next_word(rest);
    let (sender, addressee) = parse_route(route)?;
    let body = parse_kind(kind, rest)?;
    Ok(Frame {
        sender,
        addressee,
        body,
    })
}
