// A frame from a run of words.
ghost use Rattle.std.specs.Prelude.{◌≡◌, ◌+◌, ◌≤◌, length, IfOk};
ghost use Rattle.frames.specs.Answers.{answer};
ghost use Rattle.codec.specs.Words.{field_code};
ghost use Rattle.codec.specs.Reading.{field_of, three_in, count_after, payload_of, body_in, frame_of, frame_at};
ghost use Rattle.codec.specs.Trips.{WritesBack};
ghost use Rattle.codec.specs.declared.word.Kind.TheVariants as kinds;

use crate::word::{Field, Head, Kind, is_field, value_of};
use frames::frame::{Body, Frame};
use frames::payload::Payload;
use frames::refusal::Refusal;

// The value of a word that must be of that kind of field.
fn read_field(w: u32, field: Field) -> Result<u64, Refusal>
    ensures { answer result ≡ field_of (field_code field) w }
{
    if is_field(w, field) {
        Ok(u64::from(value_of(w)))
    } else {
        Err(Refusal::WordKind)
    }
}

// How many words follow the head of that kind of frame.
pub(crate) fn count_after<P: Payload>(kind: Kind) -> usize
    ensures { result ≡ count_after P.SIZE kind }
{
    match kind {
        Kind::ReqSlots | Kind::Slots => 3,
        Kind::Token => 2 + P::SIZE,
        Kind::Ack => 2,
    }
}

// The field s and two more, in the first three words.
fn three_fields(ws: &[u32], second: Field, third: Field) -> Result<(u64, u64, u64), Refusal>
    ensures { answer result ≡ three_in (field_code second) (field_code third) ws.now }
{
    let [s, x, y, ..] = ws else {
        return Err(Refusal::ShortRun);
    };
    let s = read_field(*s, Field::Number)?;
    let x = read_field(*x, second)?;
    let y = read_field(*y, third)?;
    Ok((s, x, y))
}

fn read_req_slots<P: Payload>(ws: &[u32]) -> Result<Body<P>, Refusal>
    ensures { answer result ≡ body_in P.SIZE P.reads kinds.ReqSlots ws.now }
{
    let (s, n, l) = three_fields(ws, Field::Count, Field::Low)?;
    Ok(Body::ReqSlots { s, n, l })
}

fn read_slots<P: Payload>(ws: &[u32]) -> Result<Body<P>, Refusal>
    ensures { answer result ≡ body_in P.SIZE P.reads kinds.Slots ws.now }
{
    let (s, r, n) = three_fields(ws, Field::Clock, Field::Count)?;
    Ok(Body::Slots { s, r, n })
}

fn read_ack<P: Payload>(ws: &[u32]) -> Result<Body<P>, Refusal>
    ensures { answer result ≡ body_in P.SIZE P.reads kinds.Ack ws.now }
{
    let [s, r, ..] = ws else {
        return Err(Refusal::ShortRun);
    };
    let s = read_field(*s, Field::Number)?;
    let r = read_field(*r, Field::Clock)?;
    Ok(Body::Ack { s, r })
}

// The payload in the first words: a wrong kind among them is refused before the payload's own reading is asked. It asks that they are there, since no slice
// pattern is as long as `P::SIZE`.
fn read_payload<P: Payload>(ws: &[u32]) -> Result<P, Refusal>
    requires { P.SIZE ≤ length ws.now }
    ensures { answer result ≡ payload_of P.SIZE P.reads ws.now }
{
    // Room for the longest kind: an array cannot be as long as a constant of `P`, and there is no heap here.
    let mut values = [0; 4];
    for (i, w) in ws[..P::SIZE].iter().enumerate() {
        if !is_field(*w, Field::Payload) {
            return Err(Refusal::WordKind);
        }
        values[i] = value_of(*w);
    }
    P::read(&values[..P::SIZE])
}

fn read_token<P: Payload>(ws: &[u32]) -> Result<Body<P>, Refusal>
    ensures { answer result ≡ body_in P.SIZE P.reads kinds.Token ws.now }
{
    let [s, r, rest @ ..] = ws else {
        return Err(Refusal::ShortRun);
    };
    if rest.len() < P::SIZE {
        return Err(Refusal::ShortRun);
    }
    let s = read_field(*s, Field::Number)?;
    let r = read_field(*r, Field::Clock)?;
    let payload = read_payload(rest)?;
    Ok(Body::Token { s, r, payload })
}

// The body of that kind of frame in the words after the head. A match, and no table of functions: the four kinds are all there are.
fn read_body<P: Payload>(kind: Kind, ws: &[u32]) -> Result<Body<P>, Refusal>
    ensures { answer result ≡ body_in P.SIZE P.reads kind ws.now }
{
    match kind {
        Kind::ReqSlots => read_req_slots(ws),
        Kind::Slots => read_slots(ws),
        Kind::Token => read_token(ws),
        Kind::Ack => read_ack(ws),
    }
}

// The frame of that kind with that head, whose other words come first in `rest`.
fn read_after<P: Payload>(
    head: Head,
    kind: Kind,
    rest: &[u32],
) -> Result<(Frame<P>, usize), Refusal>
    ensures { answer result ≡ frame_of P.SIZE P.reads head.0 kind rest.now }
{
    let count = count_after::<P>(kind);
    if head.count() != count {
        return Err(Refusal::HeadCount);
    }
    let body = read_body(kind, rest)?;
    let frame = Frame {
        sender: head.sender(),
        addressee: head.addressee(),
        body,
    };
    Ok((frame, count + 1))
}

// The frame at the front of a run of words, and how many of them it takes.
pub fn read_frame<P: Payload>(run: &[u32]) -> Result<(Frame<P>, usize), Refusal>
    ensures told { answer result ≡ frame_at P.SIZE P.reads run.now }
    ensures within { IfOk result (λ got. got.1 ≤ length run.now) }
    ensures writes_back { WritesBack P.words run.now (answer result) }
{
    let [head, rest @ ..] = run else {
        return Err(Refusal::EmptyRun);
    };
    let head = Head(*head);
    read_after(head, head.kind()?, rest)
}
