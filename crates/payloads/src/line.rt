// A line of a door profile.
ghost use Rattle.std.specs.Prelude.{◌≡◌, true};
ghost use Rattle.payloads.specs.Ranges.{line_fits};

mod methods;

// A step that is added to what the controller holds at a place.
#[derive(Clone, Copy, PartialEq, Eq, Debug)]
pub struct ProfileLine {
    // 0 to 1,023
    place: u32,
    // -32,768 to 32,767
    step: i32,
    ghost fits: { line_fits place step ≡ true },
}
