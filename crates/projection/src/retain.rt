// The retained nodes and the edges out of them.
ghost use Rattle.projection.specs.Lent.{SameProjectionRoom};
ghost use Rattle.projection.specs.Marking.{Retainable, Retaining};

use crate::first_edges::list_first_edges;
use crate::lent::ProjectionRoom;
use crate::links::Links;
use crate::marks::mark_nodes;
use graph::adjacency::index_edges;
use graph::edges::Edges;
use graph::end_counts::count_ends;

// How many nodes are retained, and how many edges lead out of them.
#[derive(Clone, Copy)]
pub(crate) struct Retained {
    pub nodes: usize,
    pub edges: usize,
}

// Links the edges by their sources, marks each node and lists the edges out of the retained ones.
pub(crate) fn retain(
    compressible: &[u8],
    edges: &Edges<'_>,
    order: &[usize],
    marks: &mut [u8],
    room: &mut ProjectionRoom<'_>,
) -> Retained
    requires { Retainable edges.now.sources.now edges.now.sinks.now compressible.now order.now marks.old room.old.head.now room.old.next.now room.old.incoming.now room.old.firsts.now }
    ensures same { SameProjectionRoom room.old room.new }
    ensures retained { Retaining edges.now.sources.now edges.now.sinks.now compressible.now order.now room.old.firsts.now marks.new room.new.head.now room.new.firsts.now result.nodes result.edges }
{
    let m = edges.sources.len();
    let head = &mut *room.head;
    let next = &mut *room.next;
    let incoming = &mut *room.incoming;
    index_edges(edges.sources, head, &mut next[..m]);
    count_ends(edges.sinks, incoming);
    let links = Links {
        head,
        next: &next[..m],
    };
    let nodes = mark_nodes(compressible, incoming, &links, marks);
    let edges = list_first_edges(&links, marks, order, room.firsts);
    Retained { nodes, edges }
}
