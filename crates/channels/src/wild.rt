// Loss, repetition and any order, from a number.
ghost use Rattle.std.specs.Prelude.{◌≡◌, ◌<◌, ◌≤◌, List, [], length, IfSome, Some};
ghost use Rattle.std.specs.List.{ContainsAt, slice_get};
ghost use Rattle.channels.specs.Numbers.{number_after};

use crate::channel::Channel;
use crate::look::Look;

// A channel over a borrowed table that loses frames, repeats them and gives them in any order, by a number that each call multiplies and adds to. The same
// seed and the same calls give the same frames. The first `count` frames of the table wait. The caller lends the table, since this library takes no memory; so
// its count stands beside it, and it is no `Vec`.
#[derive(Drop)]
pub struct Wild<'a, F> {
    table: &'a mut [F],
    count: usize,
    number: u64,
    ghost fits: { count ≤ length table.now },
}

// Draws the number after this one, and gives its high half, whose digits repeat least.
fn draw(number: &mut u64) -> usize
    ensures { number.new ≡ number_after number.old }
{
    *number = number
        .wrapping_mul(6364136223846793005)
        .wrapping_add(1442695040888963407);
    (*number >> 32) as usize
}

impl<'a, F: Copy> Wild<'a, F> {
    ghost use Rattle.channels.specs.Wilds.{AddsOnly, wild_room, wild_waits};

    // A wild channel in which no frame waits; what stands in the table is not looked at.
    pub fn new(table: &'a mut [F], seed: u64) -> Self
        ensures empty { wild_waits result ≡ [] }
        ensures room { wild_room result ≡ length table.old }
        ensures number { result.number ≡ seed }
    {
        Wild {
            table,
            count: 0,
            number: seed,
        }
    }

    // The frames that wait.
    fn waiting(&self) -> &[F]
        ensures { result.now ≡ wild_waits self.now }
    {
        &self.table[..self.count]
    }

    // Adds a frame, where there is room; `again`, where frames were added before.
    #[tactic(auto, using(crate::proofs::Fronts::front_adds, crate::proofs::Fronts::front_adds_again))]
    fn add(&mut self, frame: F)
        ensures number { self.new.number ≡ self.old.number }
        ensures room { wild_room self.new ≡ wild_room self.old }
        ensures adds { AddsOnly (wild_waits self.old) frame (wild_waits self.new) }
        ensures again { (fs : List F) → AddsOnly fs frame (wild_waits self.old) → AddsOnly fs frame (wild_waits self.new) }
    {
        // Not `get_mut`: once its borrow is over, a proof knows how long the table is, and no frame of it.
        if self.count < self.table.len() {
            self.table[self.count] = frame;
            self.count += 1;
        }
    }

    // Removes the waiting frame at a place of the list; the last one takes its place.
    fn remove(&mut self, at: usize)
        requires { at < length (wild_waits self.old) }
        ensures number { self.new.number ≡ self.old.number }
        ensures room { wild_room self.new ≡ wild_room self.old }
        ensures leaves { (g : F) → ContainsAt (wild_waits self.new) g → ContainsAt (wild_waits self.old) g }
    {
        let last = self.count - 1;
        self.table[at] = self.table[last];
        self.count = last;
    }

    // The frame that a number picks, with its place, if one waits and the number does not pass over it.
    #[tactic(auto, using(crate::proofs::Fronts::has_read, crate::proofs::Fronts::nth_read))]
    fn pick(&self, choice: usize) -> Option<(usize, F)>
        ensures among { IfSome result (λ p. p.0 < length (wild_waits self.now)) }
        ensures is { IfSome result (λ p. Some p.1 ≡ slice_get (wild_waits self.now) p.0) }
        ensures waits { IfSome result (λ p. ContainsAt (wild_waits self.now) p.1) }
    {
        let waiting = self.waiting();
        if waiting.is_empty() || choice % 8 == 0 {
            return None;
        }
        let at = choice / 8 % waiting.len();
        Some((at, waiting[at]))
    }
}

impl<'a, F: Copy> Channel<F> for Wild<'a, F> {
    ghost use Rattle.channels.specs.Wilds.{wild_waits, WildPuts, WildTakes};
    ghost use Rattle.channels.specs.WildLaws.{wild_lawful};

    ghost waits = { wild_waits };

    ghost puts = { WildPuts };

    ghost takes = { WildTakes };

    ghost lawful = { wild_lawful };

    // Of four puts one is lost, and one is made twice.
    fn put(&mut self, frame: F)
        ensures { WildPuts self.old frame self.new }
    {
        // Remainders, and no kinds: each stands for how often the frame is added.
        match draw(&mut self.number) % 4 {
            0 => {}
            1 => {
                self.add(frame);
                self.add(frame);
            }
            _ => self.add(frame),
        }
    }

    // Of eight takes one gives none, and one gives a frame that goes on waiting.
    fn take(&mut self) -> Option<F>
        ensures { WildTakes self.old result self.new }
    {
        let choice = draw(&mut self.number);
        let (at, frame) = self.pick(choice)?;
        if choice % 8 == 1 {
            return Some(frame);
        }
        self.remove(at);
        Some(frame)
    }
}

impl<'a, F: Copy> Look<F> for Wild<'a, F> {
    fn look(&self, i: usize) -> Option<F> {
        self.waiting().get(i).copied()
    }
}
