// What the codec and the texts do on examples.
use crate::stamp::Stamp;
use codec::{read_frame, write_frame};
use frames::frame::{Body, Frame};
use frames::payload::Payload;
use frames::refusal::Refusal;
use frametext::frame_text::show_frame;
use frametext::payload_text::PayloadText;
use payloads::event::LiftEvent;
use payloads::line::ProfileLine;
use payloads::sort::Sort;
use std::process::Abort;
use std::test::Fail;

// A body on its way.
fn sent<P>(sender: u32, addressee: u32, body: Body<P>) -> Frame<P> {
    Frame {
        sender,
        addressee,
        body,
    }
}

#[test]
fn words_of_a_request(rt: HostRuntime) -> Result<(), Fail> {
    let frame: Frame<ProfileLine> = sent(0, 1, Body::ReqSlots { s: 0, n: 3, l: 0 });
    let words = [0x1000_1003, 0x8000_0000, 0xa000_0003, 0xb000_0000];
    let mut run = [0; 4];
    assert_eq!(rt; write_frame(frame, &mut run)?, 4);
    assert_eq!(rt; run, words);
    assert_eq!(rt; read_frame::<ProfileLine>(&words)?, (frame, 4));
    Ok(())
}

#[test]
fn words_of_a_line(rt: HostRuntime) -> Result<(), Fail> {
    let payload = ProfileLine::new(5, -2)?;
    let frame = sent(
        255,
        0,
        Body::Token {
            s: 1,
            r: 2,
            payload,
        },
    );
    let words = [0x3ff0_0003, 0x8000_0001, 0x9000_0002, 0xc005_7ffe];
    let mut run = [0; 4];
    assert_eq!(rt; write_frame(frame, &mut run)?, 4);
    assert_eq!(rt; run, words);
    assert_eq!(rt; read_frame::<ProfileLine>(&words)?, (frame, 4));
    Ok(())
}

#[test]
fn words_of_an_event(rt: HostRuntime) -> Result<(), Fail> {
    let payload = LiftEvent::new(12, Sort::Stopped { floor: -3 })?;
    let frame = sent(
        2,
        5,
        Body::Token {
            s: 7,
            r: 2,
            payload,
        },
    );
    let words = [
        0x3020_5004,
        0x8000_0007,
        0x9000_0002,
        0xc003_000c,
        0xc000_003d,
    ];
    let mut run = [0; 5];
    assert_eq!(rt; write_frame(frame, &mut run)?, 5);
    assert_eq!(rt; run, words);
    assert_eq!(rt; read_frame::<LiftEvent>(&words)?, (frame, 5));
    Ok(())
}

#[test]
fn stamp_in_a_longer_run(rt: HostRuntime) -> Result<(), Fail> {
    let payload = Stamp::new(0x1234_5678_9abc_def0_0112_2334_4556)?;
    let frame = sent(
        6,
        7,
        Body::Token {
            s: 9,
            r: 8,
            payload,
        },
    );
    let mut run = [0xeeee_eeee; 9];
    assert_eq!(rt; write_frame(frame, &mut run)?, 7);
    assert_eq!(rt;
        &run[0..3],
        [0x3060_7006, 0x8000_0009, 0x9000_0008].as_slice()
    );
    assert_eq!(rt;
        &run[3..7],
        [0xc123_4567, 0xc89a_bcde, 0xcf00_1122, 0xc334_4556].as_slice()
    );
    assert_eq!(rt; &run[7..9], [0xeeee_eeee, 0xeeee_eeee].as_slice());
    assert_eq!(rt; read_frame::<Stamp>(&run)?, (frame, 7));
    Ok(())
}

#[test]
fn texts_in_memory(rt: HostRuntime) -> Result<(), Fail> {
    let heap = rt.alloc();
    let line = ProfileLine::new(5, -2)?;
    let payload = LiftEvent::new(12, Sort::Stopped { floor: -3 })?;
    let frame = sent(
        0,
        1,
        Body::Token {
            s: 7,
            r: 2,
            payload,
        },
    );
    let line_text = line.show(heap)?;
    let event_text = payload.show(heap)?;
    let frame_text = show_frame(frame, heap)?;
    assert_eq!(rt; line_text.as_str(), "place=5 step=-2");
    assert_eq!(rt; event_text.as_str(), "lift=12 floor=-3");
    assert_eq!(rt; frame_text.as_str(), "0>1 TOKEN s=7 r=2 lift=12 floor=-3");
    assert_eq!(rt; ProfileLine::count(), 1);
    assert_eq!(rt; LiftEvent::count(), 2);
    Ok(())
}

// The call says no, with that number: the numbers are what is promised.
fn refused<T: Drop>(rt: &impl Abort, answer: Result<T, Refusal>, number: u8) -> Result<(), Fail> {
    match answer {
        Ok(_) => Err(Fail::new("it is not refused")),
        Err(refusal) => {
            assert_eq!(rt; refusal.number(), number);
            Ok(())
        },
    }
}

#[test]
fn runs_are_refused(rt: HostRuntime) -> Result<(), Fail> {
    let table: [(&[u32], u8); 6] = [
        (&[], 12),
        (&[0x5000_1002, 0x8000_0000, 0x9000_0000], 13),
        (&[0x4000_1003, 0x8000_0000, 0x9000_0000, 0xa000_0000], 14),
        (&[0x4000_1002, 0x8000_0000], 15),
        (&[0x4000_1002, 0x9000_0000, 0x9000_0000], 16),
        (&[0x3000_1003, 0x8000_0000, 0x9000_0000, 0xc400_0000], 17),
    ];
    for (run, number) in table {
        refused(&rt, read_frame::<ProfileLine>(run), number)?;
    }
    Ok(())
}

#[test]
fn frames_are_refused(rt: HostRuntime) -> Result<(), Fail> {
    let body: Body<ProfileLine> = Body::Ack { s: 1, r: 2 };
    let wide: Body<ProfileLine> = Body::Ack {
        s: 268_435_456,
        r: 2,
    };
    let mut run = [7, 8];
    refused(&rt, write_frame(sent(256, 1, body), &mut run), 18)?;
    refused(&rt, write_frame(sent(0, 1, wide), &mut run), 18)?;
    refused(&rt, write_frame(sent(0, 1, body), &mut run), 19)?;
    assert_eq!(rt; run, [7, 8]);
    refused(&rt, ProfileLine::new(1024, 0), 20)
}
