// Strongly connected components of a graph whose nodes are the numbers below n.
#![tactic(auto)]

ghost use Rattle.std.specs.Prelude.{◌≡◌, length};
ghost use Rattle.graph.specs.Fits.{SharedMarked, graph_fits};
ghost use Rattle.graph.specs.Groups.{SameRoom};

use crate::adjacency::ends_below;
use crate::components::{mark_shared, strongly_connected_components};
use crate::edges::{Edges, GroupRoom};

pub mod edges; // edges.rt: the edges of a graph, and room to work in
pub mod adjacency; // adjacency.rt: edges linked by the node that they leave
pub mod chain; // chain.rt: the edges on a chain of links
pub mod end_counts; // end_counts.rt: how often each node is an end
mod visit_order; // visit_order.rt: depth-first visits, and the order in which they leave the nodes
mod collect; // collect.rt: what a node reaches through nodes not seen yet
mod components; // components.rt: a group for each strongly connected component, and marks from the groups

// Marks each node of the graph with the edges sources[e] → sinks[e]: 1 if a different node is in its strongly connected
// component, else 0. There is a node for each entry of marks. The lists must fit: as many sinks as sources, each end a
// node, and room for the work. If they do not, the answer is false and every list keeps its content. Calls nest as deep as
// a path of the graph is long, two for each node on it. Marks are bytes, as list 5 of the C interface is.
/// What the room's lists hold after an answer of true is open; they are the same lists.
#[tactic(auto, using(crate::proofs::Fitting::fitting))]
pub fn mark_shared_components(edges: &Edges<'_>, marks: &mut [u8], room: &mut GroupRoom<'_>) -> bool
    ensures same { SameRoom room.old room.new }
    ensures marked { SharedMarked edges.now.sources.now edges.now.sinks.now marks.old room.old.head.now room.old.next.now room.old.order.now room.old.group.now marks.new room.new.head.now room.new.next.now room.new.order.now room.new.group.now result }
{
    let n = marks.len();
    if !graph_fits(edges, n, room) {
        return false;
    }
    let head = &mut *room.head;
    let next = &mut *room.next;
    let group = &mut *room.group;
    strongly_connected_components(
        edges,
        marks,
        &mut head[..n],
        &mut next[..edges.sources.len()],
        room.order,
        &mut group[..n],
    );
    mark_shared(&group[..n], marks);
    true
}

// Whether the lists make a graph of n nodes, with room for the work.
#[tactic(auto, unfolding(crate::specs::Fits::graph_fits))]
fn graph_fits(edges: &Edges<'_>, n: usize, room: &GroupRoom<'_>) -> bool
    ensures { result ≡ graph_fits edges.now.sources.now edges.now.sinks.now n (length room.now.head.now) (length room.now.next.now) (length room.now.order.now) (length room.now.group.now) }
{
    edges.sinks.len() == edges.sources.len()
        && n <= room.head.len()
        && edges.sources.len() <= room.next.len()
        && n <= room.order.len()
        && n <= room.group.len()
        && ends_below(edges.sources, n)
        && ends_below(edges.sinks, n)
}
