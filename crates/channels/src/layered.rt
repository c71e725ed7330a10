// A layer that is chosen as the program runs.
ghost use Rattle.std.specs.Prelude.{◌≡◌, Some};
ghost use Rattle.channels.specs.Layereds.{layer_text, layered_over, layered_waits, LayeredPuts, LayeredTakes};
ghost use Rattle.channels.specs.LayeredLaws.{layered_lawful};

use crate::channel::Channel;
use crate::holding::Holding;
use crate::look::Look;
use crate::repeating::Repeating;
use std::fmt;

// The layers that can stand over a channel.
#[derive(Clone, Copy, PartialEq, Eq, Debug)]
pub enum Layer {
    Repeating,
    Holding,
}

impl fmt::Display for Layer {
    ghost output = { λ layer. Some (layer_text layer) };

    fn fmt<W: fmt::Write>(&self, f: &mut fmt::Formatter<W>) -> fmt::Result {
        f.write_str(match self {
            Layer::Repeating => "repeating",
            Layer::Holding => "holding",
        })
    }
}

// A channel under a layer that is chosen as the program runs, or under none. An enum, since no contract speaks of a `dyn` of a trait with a parameter.
#[derive(Drop)]
pub enum Layered<C, F> {
    Bare(C),
    Repeating(Repeating<C>),
    Holding(Holding<C, F>),
}

impl<C, F> Layered<C, F> {
    // That layer over a channel, or none; a holding layer holds no frame yet.
    pub fn new(below: C, layer: Option<Layer>) -> Self
        ensures { result ≡ layered_over below layer }
    {
        match layer {
            Some(Layer::Repeating) => Layered::Repeating(Repeating::new(below)),
            Some(Layer::Holding) => Layered::Holding(Holding::new(below)),
            None => Layered::Bare(below),
        }
    }
}

impl<F: Copy, C: Channel<F>> Channel<F> for Layered<C, F> {
    ghost waits = { layered_waits C.Channel.waits };

    ghost puts = { LayeredPuts C.Channel.puts };

    ghost takes = { LayeredTakes C.Channel.takes };

    ghost lawful = { layered_lawful C.Channel.lawful };

    fn put(&mut self, frame: F)
        ensures { LayeredPuts C.Channel.puts self.old frame self.new }
    {
        match self {
            Layered::Bare(below) => below.put(frame),
            Layered::Repeating(repeating) => repeating.put(frame),
            Layered::Holding(holding) => holding.put(frame),
        }
    }

    fn take(&mut self) -> Option<F>
        ensures { LayeredTakes C.Channel.takes self.old result self.new }
    {
        match self {
            Layered::Bare(below) => below.take(),
            Layered::Repeating(repeating) => repeating.take(),
            Layered::Holding(holding) => holding.take(),
        }
    }
}

impl<F: Copy, C: Look<F>> Look<F> for Layered<C, F> {
    fn look(&self, i: usize) -> Option<F> {
        match self {
            Layered::Bare(below) => below.look(i),
            Layered::Repeating(repeating) => repeating.look(i),
            Layered::Holding(holding) => holding.look(i),
        }
    }
}
