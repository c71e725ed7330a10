// What commands do on a channel, and what then happened.
use crate::script::Action;
use channels::look::Look;
use std::alloc::{AllocError, Global};
use std::num::Saturating;

// How many frames of a scene went which way: put + repeated = taken + waiting + lost. A total that reaches its largest number stays there.
#[derive(Clone, Copy, Default)]
pub struct Totals {
    pub put: Saturating<u64>,
    pub repeated: Saturating<u64>,
    pub taken: Saturating<u64>,
    pub lost: Saturating<u64>,
}

// The copies of frames that a channel lost, and those that it made.
#[derive(Drop)]
pub struct Strays<F> {
    pub lost: Vec<F>,
    pub repeated: Vec<F>,
}

// What happened at an action.
#[derive(Drop)]
pub enum Outcome<F> {
    Put { waiting: usize, strays: Strays<F> },
    Took { frame: Option<F>, strays: Strays<F> },
    Shown { waiting: Vec<F>, totals: Totals },
}

// The frames that `others` lacks, counted by copies. The others are searched from their end, where the first of them stand then: of two lists in the same
// order each frame is found at once, and removed without moving any.
fn lacked<F: Copy + PartialEq>(
    frames: &[F],
    others: &[F],
    heap: Global,
) -> Result<Vec<F>, AllocError> {
    let mut left = Vec::from_slice(heap, others)?;
    left.as_mut_slice().reverse();
    let mut out = Vec::new(heap);
    for frame in frames {
        match left.iter().rposition(|other| *other == *frame) {
            Some(i) => {
                left.remove(i);
            }
            None => out.push(*frame)?,
        }
    }
    Ok(out)
}

// A channel, and the totals of what happened on it.
#[derive(Drop)]
pub struct Scene<C> {
    channel: C,
    heap: Global,
    totals: Totals,
}

impl<C> Scene<C> {
    // A scene on a channel in which no frame waits yet.
    pub fn new(channel: C, heap: Global) -> Scene<C> {
        Scene {
            channel,
            heap,
            totals: Totals::default(),
        }
    }

    // The frames that wait in the channel, in order.
    fn waiting<F: Copy>(&self) -> Result<Vec<F>, AllocError>
    where
        C: Look<F>,
    {
        (0..usize::MAX)
            .map_while(|i| self.channel.look(i))
            .collect(self.heap)
    }

    // Does what an action says. An action carries what its own arm needs, which a closure in its place would have to capture.
    pub fn play<F: Copy + PartialEq>(&mut self, action: Action<F>) -> Result<Outcome<F>, AllocError>
    where
        C: Look<F>,
    {
        match action {
            Action::Put(frame) => self.put(frame),
            Action::Take => self.take(),
            Action::Show => Ok(Outcome::Shown {
                waiting: self.waiting()?,
                totals: self.totals,
            }),
        }
    }

    // Puts a frame.
    fn put<F: Copy + PartialEq>(&mut self, frame: F) -> Result<Outcome<F>, AllocError>
    where
        C: Look<F>,
    {
        let mut before = self.waiting()?;
        before.push(frame)?;
        self.channel.put(frame);
        let after = self.waiting()?;
        self.totals.put += 1;
        Ok(Outcome::Put {
            waiting: after.len(),
            strays: self.strays(before.as_slice(), after.as_slice())?,
        })
    }

    // Takes a frame, if the channel gives one.
    fn take<F: Copy + PartialEq>(&mut self) -> Result<Outcome<F>, AllocError>
    where
        C: Look<F>,
    {
        let before = self.waiting()?;
        let frame = self.channel.take();
        let mut after = self.waiting()?;
        after.extend(frame)?;
        self.totals.taken += u64::from(frame.is_some());
        Ok(Outcome::Took {
            frame,
            strays: self.strays(before.as_slice(), after.as_slice())?,
        })
    }

    // What strayed, from what waited or was put, and what then waits or was taken. It is added to the totals.
    fn strays<F: Copy + PartialEq>(
        &mut self,
        before: &[F],
        after: &[F],
    ) -> Result<Strays<F>, AllocError> {
        let lost = lacked(before, after, self.heap)?;
        let repeated = lacked(after, before, self.heap)?;
        self.totals.lost += lost.len() as u64;
        self.totals.repeated += repeated.len() as u64;
        Ok(Strays { lost, repeated })
    }
}
