// Several frames put into any channel.
ghost use Rattle.std.specs.Prelude.{take};
ghost use Rattle.std.specs.List.{FoldsTo};

use crate::channel::Channel;

// Puts each frame of a slice, in order.
pub fn put_all<F: Copy, C: Channel<F>>(channel: &mut C, frames: &[F])
    ensures { FoldsTo C.puts channel.old frames.now channel.new }
{
    for frame in frames {
        channel.put(*frame);
    }
}

// Puts the first `count` frames of an array, in order, or all of them if it has no more. The count stands beside the array for callers that fill one in part
// and take no memory.
pub fn put_first<F: Copy, C: Channel<F>, const N: usize>(
    channel: &mut C,
    frames: &[F; N],
    count: usize,
)
    ensures { FoldsTo C.puts channel.old (take count frames.now) channel.new }
{
    put_all(channel, frames.get(..count).unwrap_or(frames));
}
