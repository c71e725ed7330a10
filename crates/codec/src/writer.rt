// A frame to its words.
ghost use Rattle.std.specs.Prelude.{◌≡◌, ◌+◌, ◌^◌, ◌<◌, ◌≤◌, true, ◌∷◌, ◌++◌, map, length, drop, IfOk};
ghost use Rattle.frames.specs.Answers.{answer};
ghost use Rattle.codec.specs.Words.{word, head_word, kind_code};
ghost use Rattle.codec.specs.Layout.{kind_of, field_words, frame_words, body_fits, frame_fits};
ghost use Rattle.codec.specs.Writing.{writes, overwritten};
ghost use Rattle.codec.specs.Reading.{count_after};
ghost use Rattle.codec.specs.Trips.{ReadsBack};

use crate::reader::count_after;
use crate::word::{Field, Head, Kind, field_word};
use frames::frame::{Body, Frame, LAST_CLOCK};
use frames::payload::Payload;
use frames::refusal::Refusal;

// Whether each field of a body fits a word.
fn body_fits<P: Payload>(body: Body<P>) -> bool
    ensures { result ≡ body_fits body }
{
    match body {
        Body::ReqSlots { s, n, l } => s <= LAST_CLOCK && n <= LAST_CLOCK && l <= LAST_CLOCK,
        Body::Slots { s, r, n } => s <= LAST_CLOCK && r <= LAST_CLOCK && n <= LAST_CLOCK,
        Body::Token { s, r, payload: _ } => s <= LAST_CLOCK && r <= LAST_CLOCK,
        Body::Ack { s, r } => s <= LAST_CLOCK && r <= LAST_CLOCK,
    }
}

// Whether the words can hold the frame.
fn frame_fits<P: Payload>(frame: Frame<P>) -> bool
    ensures { result ≡ frame_fits frame }
{
    frame.sender <= 255 && frame.addressee <= 255 && body_fits(frame.body)
}

// How many words a frame takes.
fn word_count<P: Payload>(frame: Frame<P>) -> usize
    ensures count { result ≡ length (frame_words P.words frame) }
    ensures few { result ≤ 7 }
{
    count_after::<P>(Kind::from(frame.body)) + 1
}

// The head of a frame, with `count` words to follow.
fn head_of<P: Payload>(frame: Frame<P>, count: usize) -> Head
    requires fits { frame_fits frame ≡ true }
    requires count { count < 4096 }
    ensures { result.0 ≡ head_word (kind_code (kind_of frame.body)) frame.sender frame.addressee count }
{
    Head::new(Kind::from(frame.body), frame.sender, frame.addressee, count)
}

// Writes the payload's words over the front of the run. Three functions ask for room, each for another count of words, so no type can hold it for all.
fn put_payload<P: Payload>(payload: P, run: &mut [u32])
    requires { P.SIZE ≤ length run.old }
    ensures { run.new ≡ map (word 12) (P.words payload) ++ drop P.SIZE run.old }
{
    for (i, place) in run[..P::SIZE].iter_mut().enumerate() {
        *place = field_word(Field::Payload, u64::from(payload.word(i)));
    }
}

// Writes the head, the two fields and the payload of a token over the front of the run.
fn put_token<P: Payload>(head: u32, s: u64, r: u64, payload: P, run: &mut [u32])
    requires number { s < 2 ^ 28 }
    requires clock { r < 2 ^ 28 }
    requires room { 3 + P.SIZE ≤ length run.old }
    ensures { run.new ≡ (head ∷ field_words P.words (Body.Token s r payload)) ++ drop (3 + P.SIZE) run.old }
{
    let s = field_word(Field::Number, s);
    let r = field_word(Field::Clock, r);
    run[0..3].copy_from_slice(&[head, s, r]);
    put_payload(payload, &mut run[3..]);
}

// Writes the head and the words after it over the front of the run: each kind's in the order of the format, which is what an arm shows.
fn put_words<P: Payload>(head: u32, body: Body<P>, run: &mut [u32])
    requires fits { body_fits body ≡ true }
    requires room { count_after P.SIZE (kind_of body) < length run.old }
    ensures { run.new ≡ (head ∷ field_words P.words body) ++ drop (count_after P.SIZE (kind_of body) + 1) run.old }
{
    match body {
        Body::ReqSlots { s, n, l } => {
            let s = field_word(Field::Number, s);
            let n = field_word(Field::Count, n);
            let l = field_word(Field::Low, l);
            run[0..4].copy_from_slice(&[head, s, n, l]);
        }
        Body::Slots { s, r, n } => {
            let s = field_word(Field::Number, s);
            let r = field_word(Field::Clock, r);
            let n = field_word(Field::Count, n);
            run[0..4].copy_from_slice(&[head, s, r, n]);
        }
        Body::Token { s, r, payload } => put_token(head, s, r, payload, run),
        Body::Ack { s, r } => {
            let s = field_word(Field::Number, s);
            let r = field_word(Field::Clock, r);
            run[0..3].copy_from_slice(&[head, s, r]);
        }
    }
}

// Writes a frame's words over the front of a run, and gives their count. A refusal leaves the run as it was.
pub fn write_frame<P: Payload>(frame: Frame<P>, run: &mut [u32]) -> Result<usize, Refusal>
    ensures told { answer result ≡ writes P.words frame (length run.old) }
    ensures after { run.new ≡ overwritten (frame_words P.words frame) (answer result) run.old }
    ensures within { IfOk result (λ n. n ≤ length run.old) }
    ensures reads_back { ReadsBack P.SIZE P.reads frame (answer result) run.new }
{
    if !frame_fits(frame) {
        return Err(Refusal::TooLarge);
    }
    let count = word_count(frame);
    if run.len() < count {
        return Err(Refusal::NoRoom);
    }
    put_words(head_of(frame, count - 1).0, frame.body, run);
    Ok(count)
}
