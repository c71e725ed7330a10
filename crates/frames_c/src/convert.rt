// Frames from plain numbers, and back.
ghost use Rattle.std.specs.Prelude.{◌≡◌};
ghost use Rattle.frames.specs.Answers.{answer};
ghost use Rattle.frames_c.specs.Flat.{body_given, given, flat};

use crate::line_frame::LineFrame;
use codec::Kind;
use frames::frame::{Body, Frame};
use frames::refusal::Refusal;
use payloads::line::ProfileLine;

// The body that the numbers give.
fn body_given(x: LineFrame) -> Result<Body<ProfileLine>, Refusal>
    ensures { answer result ≡ body_given x }
{
    let (s, r, n, l) = (x.s, x.r, x.n, x.l);
    match Kind::try_from(x.kind)? {
        Kind::ReqSlots => Ok(Body::ReqSlots { s, n, l }),
        Kind::Slots => Ok(Body::Slots { s, r, n }),
        Kind::Token => {
            let payload = ProfileLine::new(x.place, x.step)?;
            Ok(Body::Token { s, r, payload })
        }
        Kind::Ack => Ok(Body::Ack { s, r }),
    }
}

impl TryFrom<LineFrame> for Frame<ProfileLine> {
    type Error = Refusal;

    ghost try_from_gives = { λ x r. answer r ≡ given x };

    fn try_from(x: LineFrame) -> Result<Frame<ProfileLine>, Refusal> {
        let body = body_given(x)?;
        Ok(Frame {
            sender: x.sender,
            addressee: x.addressee,
            body,
        })
    }
}

impl From<Frame<ProfileLine>> for LineFrame {
    ghost from_gives = { λ frame x. x ≡ flat frame };

    fn from(frame: Frame<ProfileLine>) -> LineFrame {
        let x = LineFrame {
            kind: Kind::from(frame.body).into(),
            sender: frame.sender,
            addressee: frame.addressee,
            ..LineFrame::default()
        };
        match frame.body {
            Body::ReqSlots { s, n, l } => LineFrame { s, n, l, ..x },
            Body::Slots { s, r, n } => LineFrame { s, r, n, ..x },
            Body::Token { s, r, payload } => LineFrame {
                s,
                r,
                place: payload.place(),
                step: payload.step(),
                ..x
            },
            Body::Ack { s, r } => LineFrame { s, r, ..x },
        }
    }
}
