// A look at what waits, for whoever shows or tests a channel. Nodes have no use for it.
ghost use Rattle.std.specs.Prelude.{◌≡◌};
ghost use Rattle.std.specs.List.{slice_get};

use crate::channel::Channel;

// A channel whose waiting frames can be seen.
pub trait Look<F>: Channel<F> {
    // The waiting frame at place `i` of the list, if it is that long.
    fn look(&self, i: usize) -> Option<F>
        ensures { result ≡ slice_get (Self.Channel.waits self.now) i };
}
