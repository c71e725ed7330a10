// Something that happened at a lift.
ghost use Rattle.std.specs.Prelude.{◌≡◌, true};
ghost use Rattle.payloads.specs.Ranges.{event_fits};

use crate::sort::Sort;

mod methods;

// An event and the lift that it happened at.
#[derive(Clone, Copy, PartialEq, Eq, Debug)]
pub struct LiftEvent {
    // 0 to 65,535
    lift: u32,
    // in the range that it names
    sort: Sort,
    ghost fits: { event_fits lift sort ≡ true },
}
