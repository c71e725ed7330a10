// What a channel is, for frames of any type.
ghost use Rattle.std.specs.Prelude.{List, Option};
ghost use Rattle.channels.specs.Channels.{Lawful};

// A channel means the list of frames that wait in it. It may lose frames, repeat them and give them in any order, but never alters or invents one.
pub trait Channel<F> {
    // the frames that wait
    ghost waits: { Self → List F };

    // the channel before a put, the frame put, and the channel after it
    ghost puts: { Self → F → Self → Type 0 };

    // the channel before a take, what the take gave, and the channel after it
    ghost takes: { Self → Option F → Self → Type 0 };

    // Puts a frame in.
    fn put(&mut self, frame: F)
        ensures { puts self.old frame self.new };

    // Takes a frame out, or finds none.
    fn take(&mut self) -> Option<F>
        ensures { takes self.old result self.new };

    // The law of channels: the two facts.
    ghost lawful: { Lawful waits puts takes };
}
