// A graph whose nodes are marked.
ghost use Rattle.projection.specs.Walking.{net, Walkable};

use crate::lent::Nodes;
use graph::edges::Edges;

// A graph with a mark for each node, and the first edge out of each. A node with mark 0 has one edge in and one out.
// A lifetime for each that lends: with one for all, no more than the marks' length would be known once they are given back.
#[derive(Clone, Copy)]
pub(crate) struct MarkedGraph<'n, 'e, 'a> {
    pub nodes: Nodes<'n>,
    pub edges: Edges<'e>,
    pub marks: &'a [u8],
    pub head: &'a [usize],
    ghost walkable: { Walkable (net edges.sources.now edges.sinks.now marks.now nodes.ids.now nodes.low.now nodes.high.now nodes.inverts.now) head.now },
}
