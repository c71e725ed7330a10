// Parts of a payload word: two halves, and signed numbers counted from a lowest one on.
ghost use Rattle.std.specs.Prelude.{◌≡◌, ◌+◌, ◌*◌, ◌/◌, ◌%◌, ◌^◌, ◌<◌, pos, ◌+ℤ◌, ◌≤ℤ◌};
ghost use Rattle.payloads.specs.Ranges.{raised, lowered};

// The word with these halves.
pub(crate) fn halves(high: u32, low: u32) -> u32
    requires high { high < 2 ^ 16 }
    requires low { low < 2 ^ 16 }
    ensures { result ≡ high * 2 ^ 16 + low }
{
    high << 16 | low
}

// The high 16 bits of a word.
pub(crate) fn high_half(w: u32) -> u32
    ensures { result ≡ w / 2 ^ 16 }
{
    w >> 16
}

// The low 16 bits of a word.
pub(crate) fn low_half(w: u32) -> u32
    ensures { result ≡ w % 2 ^ 16 }
{
    w & 0xffff
}

// `x` counted from `-below` on.
pub(crate) fn raise(x: i32, below: u32) -> u32
    requires below { below < 65536 }
    requires counts { pos 0 ≤ℤ (x +ℤ pos below) }
    requires within { x ≤ℤ pos 65535 }
    ensures { result ≡ raised below x }
{
    (x + below as i32) as u32
}

// The number that `n` counts from `-below` on.
pub(crate) fn lower(n: u32, below: u32) -> i32
    requires below { below < 65536 }
    requires within { n < 65536 }
    ensures { result ≡ lowered below n }
{
    n as i32 - below as i32
}
