// The two calls. In C a run is a pointer to its first word and then the count of its words.
ghost use Rattle.std.specs.Prelude.{◌≡◌, ◌^◌, ◌<◌, ◌≤◌, length, IfOk};
ghost use Rattle.frames.specs.Answers.{answer, number_of, refuses};
ghost use Rattle.frames_c.specs.Flat.{given};
ghost use Rattle.frames_c.specs.Calls.{signed, earliest, line_writes, line_written, line_at, line_count, line_read};

use crate::line_frame::LineFrame;
use codec::{Kind, read_frame, write_frame};
use frames::frame::{Frame, LAST_CLOCK};
use frames::refusal::Refusal;
use payloads::line::ProfileLine;

// What C takes of an answer: a count as it is, a refusal as minus its number. No `From`: both types are others'.
fn signed(told: Result<usize, Refusal>) -> i64
    requires { IfOk told (λ n. n < 2 ^ 63) }
    ensures { result ≡ signed (answer told) }
{
    match told {
        Ok(count) => count as i64,
        Err(refusal) => -i64::from(refusal.number()),
    }
}

// The refusal where the numbers give no frame: the given one, or of a token an earlier one that writing it meets.
fn first_refusal(x: LineFrame, room: usize, refusal: Refusal) -> Refusal
    ensures { refuses (number_of result) ≡ earliest x room (number_of refusal) }
{
    let Ok(Kind::Token) = Kind::try_from(x.kind) else {
        return refusal;
    };
    if x.sender > 255 || x.addressee > 255 || x.s > LAST_CLOCK || x.r > LAST_CLOCK {
        return Refusal::TooLarge;
    }
    if room < 4 {
        return Refusal::NoRoom;
    }
    refusal
}

// Writes the frame that the numbers give. Not `map_err` and `?`: behind them a proof no longer sees that the frame is the one that the numbers give.
fn write(x: LineFrame, run: &mut [u32]) -> Result<usize, Refusal>
    ensures told { answer result ≡ line_writes x (given x) (length run.old) }
    ensures after { run.new ≡ line_written (given x) run.old }
    ensures within { IfOk result (λ n. n ≤ length run.old) }
{
    match Frame::<ProfileLine>::try_from(x) {
        Ok(frame) => write_frame(frame, run),
        Err(refusal) => Err(first_refusal(x, run.len(), refusal)),
    }
}

// Reads the numbers of a frame.
fn read(run: &[u32], x: &mut LineFrame) -> Result<usize, Refusal>
    ensures told { answer result ≡ line_count (line_at run.now) }
    ensures after { x.new ≡ line_read (line_at run.now) x.old }
    ensures within { IfOk result (λ n. n ≤ length run.now) }
{
    let (frame, count) = read_frame::<ProfileLine>(run)?;
    *x = LineFrame::from(frame);
    Ok(count)
}

// Writes a frame's words over the front of a run, and gives their count, or minus the number of the first refusal:
// 13 for the kind, 18 for what is too large, 19 for the room, 20 for the line. A refusal leaves the run as it was.
#[unsafe(no_mangle)]
pub extern "C" fn keyvurram_write_line(frame: &LineFrame, run: &mut [u32]) -> i64
    ensures told { result ≡ signed (line_writes frame.now (given frame.now) (length run.old)) }
    ensures after { run.new ≡ line_written (given frame.now) run.old }
{
    signed(write(*frame, run))
}

// Reads the frame at the front of a run, and gives the count of its words, or minus the number of the first refusal,
// 12 to 17. A refusal leaves the frame as it was.
#[unsafe(no_mangle)]
pub extern "C" fn keyvurram_read_line(run: &[u32], frame: &mut LineFrame) -> i64
    ensures told { result ≡ signed (line_count (line_at run.now)) }
    ensures after { frame.new ≡ line_read (line_at run.now) frame.old }
{
    signed(read(run, frame))
}
