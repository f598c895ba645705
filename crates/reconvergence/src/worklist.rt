// Nodes taken one by one, each once all edges into it are relaxed.
ghost use Rattle.std.specs.Prelude.{◌+◌, ◌<◌, length};
ghost use Rattle.rules.specs.Ordered.{key_at};
ghost use Rattle.reconvergence.specs.Lent.{SameWorklist, Standing, kept, timed, taking, relaxed};

use crate::lent::{Delays, PathSums, SumRoom};
use graph::edges::Edges;
use rules::delay::DelayRange;

// The sums and the room of a pass, and how many places of the room's queue are in use: the queue's list is lent, since
// there is no heap. Each reference has lifetimes of its own, and edges and delays are parameters still: the borrow checker
// covers no call that lends them all at one lifetime.
#[derive(Drop)]
pub(crate) struct Worklist<'s, 't, 'r, 'q> {
    pub sums: &'s mut PathSums<'t>,
    pub room: &'r mut SumRoom<'q>,
    pub waiting: usize,
}

impl Worklist<'_, '_, '_, '_> {
    // Takes every node that comes to have no edge left, the oldest first.
    pub(crate) fn take_all(&mut self, edges: &Edges<'_>, delays: &Delays<'_>)
        requires { timed edges.now delays.now self.old.room.now × taking edges.now delays.now self.old 0 }
        ensures same { SameWorklist self.old self.new }
        ensures taken { taking edges.now delays.now self.new self.new.waiting }
        ensures kept { kept (length delays.now.low.now) self.old self.new }
    {
        let mut i = 0;
        // a `for` would need the last count before the first node is taken
        while i < self.waiting {
            self.take(edges, delays, i);
            i += 1;
        }
    }

    // Takes the node at place i, whichever it is: relaxes the edges that leave it.
    fn take(&mut self, edges: &Edges<'_>, delays: &Delays<'_>, i: usize)
        requires { timed edges.now delays.now self.old.room.now × taking edges.now delays.now self.old i × (i < self.old.waiting) }
        ensures same { SameWorklist self.old self.new }
        ensures taken { taking edges.now delays.now self.new (i + 1) }
        ensures kept { kept (length delays.now.low.now) self.old self.new }
    {
        let u = self.room.queue[i];
        let sum = self.sums.at(u) + delays.at(u);
        let mut e = self.room.head[u];
        // an iterator over the chain would hold the links, and `relax` writes the room that they are in
        while e < edges.sinks.len() {
            self.relax(edges.sinks[e], sum);
            e = self.room.next[e];
        }
    }

    // Relaxes an edge into v that brings sum; with the last one v comes to wait. Which edge is the first or the last can't be
    // foretold, so it is told by values and not by branches. The first smallest sum stands as it is: the 0 before it is no
    // sum. No largest sum is below that 0. v is put in the next free place of queue every time, and counted the last time.
    fn relax(&mut self, v: usize, sum: DelayRange)
        requires { (v < length self.old.room.now.incoming.now) × (v < length self.old.room.now.left.now) × (v < length self.old.sums.now.smallest.now) × (v < length self.old.sums.now.largest.now) × (0 < key_at self.old.room.now.left.now v) × (self.old.waiting < length self.old.room.now.queue.now) }
        ensures same { SameWorklist self.old self.new }
        ensures relaxed { relaxed self.old v sum self.new }
        ensures standing { Standing self.old self.new }
    {
        let waits = self.room.left[v];
        let smaller = sum.minimum_redstone_ticks.min(self.sums.smallest[v]);
        let first = waits == self.room.incoming[v];
        self.sums.smallest[v] = if first {
            sum.minimum_redstone_ticks
        } else {
            smaller
        };
        self.sums.largest[v] = sum.maximum_redstone_ticks.max(self.sums.largest[v]);
        self.room.left[v] = waits - 1;
        self.room.queue[self.waiting] = v;
        self.waiting += usize::from(waits == 1);
    }
}
