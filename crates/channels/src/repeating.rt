// Each frame twice.
ghost use Rattle.std.specs.Prelude.{◌≡◌};
ghost use Rattle.channels.specs.Repeats.{repeat_waits, RepeatPuts, RepeatTakes};
ghost use Rattle.channels.specs.RepeatLaws.{repeat_lawful};

use crate::channel::Channel;
use crate::look::Look;

// A layer that puts each frame twice into the channel below.
#[derive(Drop)]
pub struct Repeating<C> {
    pub below: C,
}

impl<C> Repeating<C> {
    // The layer over a channel.
    pub fn new(below: C) -> Self
        ensures { result.below ≡ below }
    {
        Repeating { below }
    }
}

impl<F: Copy, C: Channel<F>> Channel<F> for Repeating<C> {
    ghost waits = { repeat_waits C.Channel.waits };

    ghost puts = { RepeatPuts C.Channel.puts };

    ghost takes = { RepeatTakes C.Channel.takes };

    ghost lawful = { repeat_lawful C.Channel.lawful };

    fn put(&mut self, frame: F)
        ensures { RepeatPuts C.Channel.puts self.old frame self.new }
    {
        self.below.put(frame); // once
        self.below.put(frame); // and again
    }

    fn take(&mut self) -> Option<F>
        ensures { RepeatTakes C.Channel.takes self.old result self.new }
    {
        self.below.take()
    }
}

impl<F: Copy, C: Look<F>> Look<F> for Repeating<C> {
    fn look(&self, i: usize) -> Option<F> {
        self.below.look(i)
    }
}
