// The newest frame kept back.
ghost use Rattle.std.specs.Prelude.{◌≡◌, length, nat_le, None};
ghost use Rattle.channels.specs.Holds.{hold_waits, HoldPuts, HoldTakes};
ghost use Rattle.channels.specs.HoldLaws.{hold_lawful};

use crate::channel::Channel;
use crate::look::Look;

// A layer that keeps back the newest frame, and puts the one before it into the channel below.
#[derive(Drop)]
pub struct Holding<C, F> {
    pub below: C,
    pub held: Option<F>,
}

impl<C, F> Holding<C, F> {
    // The layer over a channel; it holds no frame yet.
    pub fn new(below: C) -> Self
        ensures below { result.below ≡ below }
        ensures none_held { result.held ≡ None }
    {
        Holding { below, held: None }
    }
}

impl<F: Copy, C: Channel<F>> Channel<F> for Holding<C, F> {
    ghost waits = { hold_waits C.Channel.waits };

    ghost puts = { HoldPuts C.Channel.puts };

    ghost takes = { HoldTakes C.Channel.takes };

    ghost lawful = { hold_lawful C.Channel.lawful };

    fn put(&mut self, frame: F)
        ensures { HoldPuts C.Channel.puts self.old frame self.new }
    {
        if let Some(older) = self.held.replace(frame) {
            self.below.put(older);
        }
    }

    fn take(&mut self) -> Option<F>
        ensures { HoldTakes C.Channel.takes self.old result self.new }
    {
        // Not `or_else`: its contract leaves open what a closure that it does not call does to `held`.
        match self.below.take() {
            Some(frame) => Some(frame),
            None => self.held.take(),
        }
    }
}

// Whether at least `i` frames wait in a channel.
fn reaches<F: Copy, C: Look<F>>(channel: &C, i: usize) -> bool
    ensures { result ≡ nat_le i (length (C.Channel.waits channel.now)) }
{
    i == 0 || channel.look(i - 1).is_some()
}

impl<F: Copy, C: Look<F>> Look<F> for Holding<C, F> {
    fn look(&self, i: usize) -> Option<F> {
        // A frame that waits below is found by one look, through each layer of a pile.
        match self.below.look(i) {
            Some(frame) => Some(frame),
            None if reaches(&self.below, i) => self.held,
            None => None,
        }
    }
}
