// One chain, walked from a retained node through compressed ones to the next retained one.
ghost use Rattle.std.specs.Prelude.{◌+◌, ◌≤◌, length};
ghost use Rattle.rules.specs.Projection.{path_length};
ghost use Rattle.projection.specs.Lent.{graph_lent};
ghost use Rattle.projection.specs.Walking.{edge_at, entry_of, FirstEdge, Walking};

use crate::marked::MarkedGraph;
use rules::delay::DelayRange;

// Where a chain ends, the place after its path, and its delay and inversion.
#[derive(Clone, Copy)]
pub(crate) struct Walked {
    pub sink: usize,
    pub end: usize,
    pub delay: DelayRange,
    pub inverted: bool,
}

impl MarkedGraph<'_, '_, '_> {
    // Walks the chain that begins with the edge first, and writes the ids met from start on. A node's delay and
    // inversion count where the chain leaves it, so those of the last do not.
    pub(crate) fn walk(&self, path_ids: &mut [u64], start: usize, first: usize) -> Walked
        requires { FirstEdge (graph_lent self.now) first × (start + path_length (entry_of (graph_lent self.now) (edge_at (graph_lent self.now) first)) ≤ length path_ids.old) }
        ensures { Walking (graph_lent self.now) first start path_ids.old path_ids.new result }
    {
        let nodes = self.nodes;
        let mut v = self.edges.sources[first];
        let mut e = first;
        let mut end = start;
        let mut delay = DelayRange::ZERO;
        let mut inverted = false;
        // no `for`: a chain ends where a retained node is met, and the next edge is read on the way
        loop {
            let left = v;
            v = self.edges.sinks[e];
            path_ids[end] = nodes.ids[left];
            end += 1;
            delay = delay
                + DelayRange {
                    minimum_redstone_ticks: nodes.low[left],
                    maximum_redstone_ticks: nodes.high[left],
                };
            inverted ^= nodes.inverts[left] != 0;
            if self.marks[v] != 0 {
                break;
            }
            e = self.head[v];
        }
        path_ids[end] = nodes.ids[v];
        Walked {
            sink: v,
            end: end + 1,
            delay,
            inverted,
        }
    }
}
