// First in, first out.
ghost use Rattle.std.specs.Prelude.{◌≡◌, ℕ, ◌<◌, ◌≤◌, [], length, None};
ghost use Rattle.std.specs.List.{slice_get};

use crate::channel::Channel;
use crate::look::Look;

// A line over a borrowed table of any length; it loses what is put when the table is full. `count` frames wait: the oldest at `head`, or at
// the start where that is the table's end, the others behind it, and on from the start. The caller lends the table, since this library takes no memory; so its
// numbers stand beside it, and it is no `VecDeque`.
#[derive(Drop)]
pub struct Line<'a, F> {
    table: &'a mut [F],
    head: usize,
    count: usize,
    ghost starts: { head ≤ length table.now },
    ghost fits: { count ≤ length table.now },
}

impl<'a, F: Copy> Line<'a, F> {
    ghost use Rattle.channels.specs.Lines.{line_room, line_waits, ReadsAt, WritesAt, OldestAt};

    // A line in which no frame waits; what stands in the table is not looked at.
    pub fn new(table: &'a mut [F]) -> Self
        ensures empty { line_waits result ≡ [] }
        ensures room { line_room result ≡ length table.old }
    {
        Line {
            table,
            head: 0,
            count: 0,
        }
    }

    // Where the waiting frame at place `i` of the list stands in the table, and, with `i` their count, where the next one will.
    #[tactic(auto, using(crate::proofs::Places::place_reads, crate::proofs::Places::place_writes, crate::proofs::Places::place_oldest))]
    fn place(&self, i: usize) -> usize
        requires { i < line_room self.now }
        ensures within { result < line_room self.now }
        ensures reads { ReadsAt self.now i result }
        ensures writes { WritesAt self.now i result }
        ensures oldest { OldestAt self.now i result }
    {
        let rest = self.table.len() - self.head;
        if i < rest { self.head + i } else { i - rest }
    }
}

impl<'a, F: Copy> Channel<F> for Line<'a, F> {
    ghost use Rattle.channels.specs.Lines.{line_waits, LinePuts, LineTakes};
    ghost use Rattle.channels.specs.LineLaws.{line_lawful};

    ghost waits = { line_waits };

    ghost puts = { LinePuts };

    ghost takes = { LineTakes };

    ghost lawful = { line_lawful };

    fn put(&mut self, frame: F)
        ensures { LinePuts self.old frame self.new }
    {
        let count = self.count;
        if count < self.table.len() {
            let at = self.place(count);
            self.table[at] = frame;
            self.count += 1;
        }
    }

    fn take(&mut self) -> Option<F>
        ensures { LineTakes self.old result self.new }
    {
        if self.count == 0 {
            return None;
        }
        let at = self.place(0);
        let frame = self.table[at];
        self.head = at + 1;
        self.count -= 1;
        Some(frame)
    }
}

impl<'a, F: Copy> Look<F> for Line<'a, F> {
    fn look(&self, i: usize) -> Option<F> {
        // Not `then`: the proof of the index in its closure does not close.
        if i < self.count {
            Some(self.table[self.place(i)])
        } else {
            None
        }
    }
}
