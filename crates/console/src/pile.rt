// Piles that are named as the program runs.
ghost use Rattle.console.specs.Input.{ReadsOn};

use crate::player::Scene;
use crate::script::{Bottom, Change, MOST_LAYERS, Pile, Wanted};
use crate::session::Session;
use channels::layered::{Layer, Layered};
use channels::line::Line;
use channels::look::Look;
use channels::wild::Wild;
use frames::frame::{Body, Frame};
use frametext::payload_text::PayloadText;
use std::alloc::{AllocError, Global};
use std::io;

// Plays the commands on a bottom with those layers over it up to the one that ends it, and gives that one; none at the end of the input.
fn attend<P: PayloadText + PartialEq, C: Look<Frame<P>> + Drop>(
    bottom: C,
    layers: [Option<Layer>; MOST_LAYERS],
    session: &mut Session,
) -> io::Result<Option<Change>>
    ensures { ReadsOn session.old result session.new }
{
    let [first, second, third] = layers;
    let pile = Layered::new(Layered::new(Layered::new(bottom, first), second), third);
    let mut scene = Scene::new(pile, session.heap());
    session.next_change::<P, _>(|session, action| session.tell(scene.play(action)?))
}

// A table with room for that many frames; those that fill it at first are never seen.
fn blank_table<P: Copy>(room: usize, heap: Global) -> Result<Vec<Frame<P>>, AllocError> {
    let blank = Frame {
        sender: 0,
        addressee: 0,
        body: Body::Ack { s: 0, r: 0 },
    };
    Ok(vec![in heap; blank; room]?)
}

// Plays on a pile with nothing waiting in it, or waits for one.
pub fn play_on<P: PayloadText + PartialEq>(
    pile: Option<Pile>,
    session: &mut Session,
) -> io::Result<Option<Change>>
    ensures { ReadsOn session.old result session.new }
{
    let Some(pile) = pile else {
        return session.next_change::<P, _>(|s, _| s.tell_unread(Wanted::Channel.into()));
    };
    let layers = pile.layers;
    let (Bottom::Line { room } | Bottom::Wild { room, .. }) = pile.bottom;
    let mut table = blank_table::<P>(room, session.heap())?;
    let table = table.as_mut_slice();
    // An arm for each bottom: a channel's type is its bottom's.
    match pile.bottom {
        Bottom::Line { .. } => attend(Line::new(table), layers, session),
        Bottom::Wild { seed, .. } => attend(Wild::new(table, seed), layers, session),
    }
}
