// Stamps made, looked at, and as words.
ghost use Rattle.std.specs.Prelude.{◌≡◌, ◌<◌};
ghost use Rattle.frames.specs.Answers.{answer, or_refuse};
ghost use Rattle.frames_tests.specs.Stamps.{stamp_of, stamp_by, part_of, stamp_words, stamp_reads};
ghost use Rattle.frames_tests.specs.StampLaws.{stamp_back, stamp_only};
ghost use Rattle.std.proofs.Common.{rules};

use crate::stamp::Stamp;
use frames::payload::Payload;
use frames::refusal::Refusal;

// The last stamp, 2^112 - 1.
const LAST_STAMP: u128 = 0xffff_ffff_ffff_ffff_ffff_ffff_ffff;

// The stamp with that value, if it is in range: as for a line, over a part of its own.
fn stamp_of(value: u128) -> Option<Stamp>
    ensures { result ≡ stamp_of value }
{
    if value <= LAST_STAMP {
        Some(Stamp { value })
    } else {
        None
    }
}

// The stamp with these words, if each has at most 28 bits.
fn stamp_in(a: u32, b: u32, c: u32, d: u32) -> Option<Stamp>
    ensures { result ≡ stamp_by a b c d }
{
    if a < 0x1000_0000 && b < 0x1000_0000 && c < 0x1000_0000 && d < 0x1000_0000 {
        let high = u128::from(a) * 0x1000_0000 + u128::from(b);
        let low = u128::from(c) * 0x1000_0000 + u128::from(d);
        stamp_of(high * 0x100_0000_0000_0000 + low)
    } else {
        None
    }
}

// The 28 bits of a stamp's value that stand at bit `from`.
fn part(value: u128, from: u32) -> u32
    requires { from < 128 }
    ensures { result ≡ part_of value from }
{
    (value >> from & 0xfff_ffff) as u32
}

impl Stamp {
    // The stamp with that value; refused where it is out of range.
    pub fn new(value: u128) -> Result<Stamp, Refusal>
        ensures { answer result ≡ or_refuse (stamp_of value) 20 }
    {
        stamp_of(value).ok_or(Refusal::PartRange)
    }

    // The value, below 2^112.
    pub fn value(self) -> u128
        ensures { result ≡ self.value }
    {
        self.value
    }
}

// Four words of 28 bits, the highest bits first.
impl Payload for Stamp {
    const SIZE: usize = 4;

    ghost SIZE = { 4 };

    ghost words = { stamp_words };

    ghost reads = { stamp_reads };

    ghost some = { Prim.search rules };

    ghost few = { Prim.search rules };

    ghost counted = { Prim.search rules };

    ghost narrow = { Prim.search rules };

    ghost back = { stamp_back };

    ghost only = { stamp_only };

    fn word(self, i: usize) -> u32 {
        match i {
            0 => part(self.value, 84),
            1 => part(self.value, 56),
            2 => part(self.value, 28),
            3 => part(self.value, 0),
            _ => 0,
        }
    }

    fn read(ws: &[u32]) -> Result<Stamp, Refusal> {
        let [a, b, c, d] = ws else {
            return Err(Refusal::PayloadWords);
        };
        stamp_in(*a, *b, *c, *d).ok_or(Refusal::PayloadWords)
    }
}
