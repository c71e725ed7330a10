// What happens at a lift.
ghost use Rattle.std.specs.Prelude.{Some};
ghost use Rattle.payloads.specs.Texts.{bare_sort_text};

use std::fmt;

// The sorts of lift event.
#[derive(Clone, Copy, PartialEq, Eq, Debug)]
pub enum Sort {
    // Somebody pressed the alarm.
    AlarmPressed,
    // A door reported a fault, with a code from 1 to 255.
    DoorFault { code: u32 },
    // The lift stopped at a floor from -64 to 191.
    Stopped { floor: i32 },
}

// As `alarm`, `door=7` or `floor=-3`.
impl fmt::Display for Sort {
    ghost output = { λ s. Some (bare_sort_text s) };

    fn fmt<W: fmt::Write>(&self, f: &mut fmt::Formatter<W>) -> fmt::Result {
        match self {
            Sort::AlarmPressed => f.write_str("alarm"),
            Sort::DoorFault { code } => write!(f, "door={code}"),
            Sort::Stopped { floor } => write!(f, "floor={floor}"),
        }
    }
}
