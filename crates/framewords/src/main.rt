// Frames to words and words to frames, by commands on standard input.
#![tactic(auto)]

mod session;
mod unanswered;

use session::Session;
use std::io;
use std::io::{BufRead, BufReader};
use unanswered::Unanswered;

fn main(rt: HostRuntime) -> io::Result<()> {
    let heap = rt.alloc();
    let mut session = Session::new(heap);
    let lines = BufReader::new(heap, rt.stdin())?.lines(heap);
    for (number, line) in (1u64..).zip(lines) {
        // `console` has the same messages: a function for both would be generic over both error enums and take the number, no shorter than three arms.
        match session.answer(line) {
            Ok(Some(told)) => rt.println(told)?,
            Ok(None) => {}
            Err(Unanswered::Unclear(wanted)) => println!(rt; "line {number}: expected {wanted}")?,
            Err(Unanswered::Refused(refusal)) => println!(rt; "refused {refusal}")?,
            Err(Unanswered::Failed(e)) => return Err(e),
        }
    }
    Ok(())
}
