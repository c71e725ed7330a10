// One function over any channel, and two piles that it is used on.
ghost use Rattle.std.specs.Prelude.{◌≡◌, ◌⊎◌, [], ◌∷◌, IfSome};
ghost use Rattle.std.specs.List.{FoldsTo};

use channels::channel::Channel;
use channels::holding::Holding;
use channels::line::Line;
use channels::repeating::Repeating;
use channels::wild::Wild;

// Puts two frames, in order.
pub fn put_two<F: Copy, C: Channel<F>>(channel: &mut C, first: F, second: F)
    ensures { FoldsTo C.puts channel.old (first ∷ second ∷ []) channel.new }
{
    channel.put(first);
    channel.put(second);
}

// Puts two frames and takes one out. Where none waited, what comes out is one of the two.
pub(crate) fn put_two_take_one<F: Copy, C: Channel<F>>(
    channel: &mut C,
    first: F,
    second: F,
) -> Option<F>
    ensures calls { (m : C) × (FoldsTo C.puts channel.old (first ∷ second ∷ []) m) × C.takes m result channel.new }
    ensures given { C.waits channel.old ≡ [] → IfSome result (λ f. (first ≡ f) ⊎ (second ≡ f)) }
{
    put_two(channel, first, second);
    channel.take()
}

// The same over a wild channel, with each frame held back and then put twice. A pile's type is what this and the next function show, so there are two.
pub(crate) fn over_wild<F: Copy>(table: &mut [F], seed: u64, first: F, second: F) -> Option<F>
    ensures { IfSome result (λ f. (first ≡ f) ⊎ (second ≡ f)) }
{
    let mut pile = Repeating::new(Holding::new(Wild::new(table, seed)));
    put_two_take_one(&mut pile, first, second)
}

// The same over a line, with the layers the other way round.
pub(crate) fn over_line<F: Copy>(table: &mut [F], first: F, second: F) -> Option<F>
    ensures { IfSome result (λ f. (first ≡ f) ⊎ (second ≡ f)) }
{
    let mut pile = Holding::new(Repeating::new(Line::new(table)));
    put_two_take_one(&mut pile, first, second)
}
