// A number of 112 bits.
ghost use Rattle.std.specs.Prelude.{◌≡◌, true};
ghost use Rattle.frames_tests.specs.Ranges.{stamp_fits};

mod methods;

// A stamp takes the most words that a payload can take, and fills each.
#[derive(Clone, Copy, PartialEq, Eq, Debug)]
pub struct Stamp {
    // below 2^112
    value: u128,
    ghost fits: { stamp_fits value ≡ true },
}
