// Edges linked by the node that they leave.
ghost use Rattle.std.specs.Prelude.{◌≡◌, ◌<◌, eqb, length, get_or};
ghost use Rattle.graph.specs.Adjacency.{Rises};
ghost use Rattle.projection.specs.Marking.{linked};

use graph::chain::Chain;

// head[v] is the first edge out of v, and next[e] the one after e, each past the last edge if there is none. Not the links of
// the graph: those also have where each edge leads, which is not followed here.
#[derive(Clone, Copy)]
pub(crate) struct Links<'a> {
    pub head: &'a [usize],
    pub next: &'a [usize],
    ghost rises: { Rises next.now },
}

impl<'a> Links<'a> {
    // The edges out of v.
    pub(crate) fn leaving(&self, v: usize) -> Chain<'a>
        requires { v < length self.now.head.now }
        ensures { (result.next.now ≡ self.now.next.now) × (result.at ≡ get_or self.now.head.now v 0) }
    {
        Chain {
            next: self.next,
            at: self.head[v],
        }
    }

    // Whether one edge leads from v.
    pub(crate) fn leaves_once(&self, v: usize) -> bool
        requires { v < length self.now.head.now }
        ensures { result ≡ eqb (length (linked self.now.head.now self.now.next.now v)) 1 }
    {
        let mut edges = self.leaving(v);
        edges.next().is_some() && edges.next().is_none()
    }
}
