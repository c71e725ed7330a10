// Parts of a word. Payloads have the same for their halves: a library for both would have to make functions public that ask for a width in range.
ghost use Rattle.std.specs.Prelude.{◌≡◌, ◌+◌, ◌-◌, ◌*◌, ◌/◌, ◌%◌, ◌^◌, ◌<◌};

// `low` in the low `shift` bits of a word, `high` in those above them.
pub(crate) fn join(high: u32, shift: u32, low: u32) -> u32
    requires shift { shift < 32 }
    requires high { high < 2 ^ (32 - shift) }
    requires low { low < 2 ^ shift }
    ensures { result ≡ high * 2 ^ shift + low }
{
    high << shift | low
}

// The `width` bits of a word from bit `from` on.
pub(crate) fn part(w: u32, from: u32, width: u32) -> u32
    requires from { from < 32 }
    requires width { width < 32 }
    ensures { result ≡ w / 2 ^ from % 2 ^ width }
{
    w >> from & (1 << width) - 1
}
