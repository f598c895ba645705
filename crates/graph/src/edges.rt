// The edges of a graph whose nodes are numbers, and the links along which their ends are followed.
ghost use Rattle.std.specs.Prelude.{◌≡◌};

use crate::chain::Chain;

// Edge e leads from sources[e] to sinks[e].
#[derive(Clone, Copy)]
pub struct Edges<'a> {
    pub sources: &'a [usize],
    pub sinks: &'a [usize],
}

// The edges linked by the node that they leave: head[u] is the first edge that leaves u, next[e] the one after e, each past the
// last edge if there is none, and ends[e] is where e leads.
#[derive(Clone, Copy)]
pub(crate) struct Links<'a> {
    pub head: &'a [usize],
    pub next: &'a [usize],
    pub ends: &'a [usize],
}

impl<'a> Links<'a> {
    // The edges linked from first on.
    pub(crate) fn chain(&self, first: usize) -> Chain<'a>
        ensures { (result.next.now ≡ self.now.next.now) × (result.at ≡ first) }
    {
        Chain {
            next: self.next,
            at: first,
        }
    }
}

// Lists to work in: head, order and group have an entry for each node at least, and next one for each edge.
#[derive(Drop)]
pub struct GroupRoom<'a> {
    pub head: &'a mut [usize],
    pub next: &'a mut [usize],
    pub order: &'a mut [usize],
    pub group: &'a mut [usize],
}
