// The tests of the lists' shapes.
ghost use Rattle.std.specs.Prelude.{◌≡◌, []};
ghost use Rattle.projection.specs.Lent.{nodes_lent, projection_lent, room_lent};
ghost use Rattle.projection.specs.Projecting.{each_is, lengths_fit, projection_fits};

use crate::lent::{Nodes, ProjectionRoom};
use graph::adjacency::ends_below;
use graph::edges::Edges;
use lengths::each_at_least;
use order::rising::rise_along;
use rules::lent::ProjectionLists;

// Whether the lists have the shapes that a projection asks for. The call's parameters, one by one: a struct of the six would
// be taken apart here at once, and the passes need other parts of it.
#[tactic(auto, unfolding(crate::specs::Projecting::shapes_fit))]
pub(crate) fn lists_fit(
    nodes: &Nodes<'_>,
    edges: &Edges<'_>,
    order: &[usize],
    marks: &[u8],
    projected: &ProjectionLists<'_>,
    room: &ProjectionRoom<'_>,
) -> bool
    ensures { result ≡ projection_fits (nodes_lent nodes.now edges.now order.now) marks.now (projection_lent projected.now) (room_lent room.now) }
{
    let n = nodes.ids.len();
    lengths_fit(nodes, edges, marks, projected, room)
        && ends_below(edges.sources, n)
        && ends_below(edges.sinks, n)
        && ends_below(order, n)
        && rise_along(nodes.ids, order)
}

// Whether there is a sink for each source, some lists have an entry for each node and no more, some for each node at
// least, some for each edge at least, and list 7 has two for each edge at least. assessment_room of assess reads some of
// these lengths too, but takes the shortest, where here each is tested.
fn lengths_fit(
    nodes: &Nodes<'_>,
    edges: &Edges<'_>,
    marks: &[u8],
    projected: &ProjectionLists<'_>,
    room: &ProjectionRoom<'_>,
) -> bool
    ensures { result ≡ lengths_fit (nodes_lent nodes.now edges.now []) marks.now (projection_lent projected.now) (room_lent room.now) }
{
    let n = nodes.ids.len();
    let m = edges.sources.len();
    let per_node = [
        nodes.low.len(),
        nodes.high.len(),
        nodes.inverts.len(),
        nodes.compressible.len(),
    ];
    let node_room = [marks.len(), room.head.len(), room.incoming.len()];
    let edge_room = [
        room.next.len(),
        room.firsts.len(),
        projected.sources.len(),
        projected.sinks.len(),
        projected.inverted.len(),
        projected.minimums.len(),
        projected.maximums.len(),
        projected.starts.len(),
        projected.lengths.len(),
    ];
    edges.sinks.len() == m
        && each_is(n, &per_node)
        && each_at_least(n, &node_room)
        && each_at_least(m, &edge_room)
        // twice m may be more than a usize holds
        && m <= projected.path_ids.len() / 2
}

// Whether each of the lengths is n. Like each_at_least but for the test, which one for both would take as a closure.
fn each_is(n: usize, lengths: &[usize]) -> bool
    ensures { result ≡ each_is n lengths.now }
{
    lengths.iter().all(|&k| k == n)
}
