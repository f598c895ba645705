// Projection: the compressed nodes of a graph, and the projected edges between the others with their paths.
#![tactic(auto)]

ghost use Rattle.rules.specs.Lent.{SameProjection};
ghost use Rattle.projection.specs.Lent.{SameProjectionRoom, nodes_lent, projection_lent, room_lent};
ghost use Rattle.projection.specs.Projecting.{Fitted, Projecting, ProjectionCall};

use crate::fits::lists_fit;
use crate::lent::{Nodes, ProjectionRoom};
use crate::marked::MarkedGraph;
use crate::retain::retain;
use graph::edges::Edges;
use rules::lent::ProjectionLists;

pub mod lent; // lent.rt: the lists that are read, written and lent to work in
pub mod projected_path; // projected_path.rt: the path of one projected edge
mod fits; // fits.rt: the tests of the lists' shapes
mod links; // links.rt: edges linked by the node that they leave
mod marks; // marks.rt: nodes marked
mod first_edges; // first_edges.rt: the edges that chains begin with
mod retain; // retain.rt: these two passes, over edges that are linked
mod marked; // marked.rt: a graph whose nodes are marked
mod walk; // walk.rt: one chain of it
mod fill; // fill.rt: a projected edge and its path for each chain

// How many nodes are retained, how many edges projected and how many ids in their paths.
#[derive(Clone, Copy)]
pub struct Projected {
    pub retained: usize,
    pub projected: usize,
    pub path_ids: usize,
}

// Marks each node 1 for retained or 0 for compressed, in list 5 of the C interface, and writes the projected edges,
// from each retained node in the given order along each outgoing edge, with their paths one after another. The lists
// must fit: as many sinks as sources, each end a node; each list of nodes with an entry for each id; the order's
// entries nodes whose ids rise; marks, head and incoming with an entry for each node at least; next, firsts and the
// seven fields of a projected edge with one for each edge at least, path_ids with two. If they do not, the answer is
// None and every list keeps its content.
/// What the room's lists hold after an answer that is not None is open; they are the same lists.
pub fn steady_state_projection(
    nodes: &Nodes<'_>,
    edges: &Edges<'_>,
    order: &[usize],
    marks: &mut [u8],
    projected: &mut ProjectionLists<'_>,
    room: &mut ProjectionRoom<'_>,
) -> Option<Projected>
    ensures same_lists { SameProjection projected.old projected.new }
    ensures same_room { SameProjectionRoom room.old room.new }
    ensures call { ProjectionCall (nodes_lent nodes.now edges.now order.now) marks.old marks.new (projection_lent projected.old) (projection_lent projected.new) (room_lent room.old) (room_lent room.new) result }
{
    if !lists_fit(nodes, edges, order, marks, projected, room) {
        return None;
    }
    Some(project(nodes, edges, order, marks, projected, room))
}

// The same, where the lists fit; they come one by one, as lists_fit says.
fn project(
    nodes: &Nodes<'_>,
    edges: &Edges<'_>,
    order: &[usize],
    marks: &mut [u8],
    projected: &mut ProjectionLists<'_>,
    room: &mut ProjectionRoom<'_>,
) -> Projected
    requires { Fitted (nodes_lent nodes.now edges.now order.now) marks.old (projection_lent projected.old) (room_lent room.old) }
    ensures same_lists { SameProjection projected.old projected.new }
    ensures same_room { SameProjectionRoom room.old room.new }
    ensures projecting { Projecting (nodes_lent nodes.now edges.now order.now) marks.old marks.new (projection_lent projected.old) (projection_lent projected.new) result }
{
    let marks = &mut marks[..nodes.ids.len()];
    let retained = retain(nodes.compressible, edges, order, marks, room);
    let head = &mut *room.head;
    let firsts = &mut *room.firsts;
    let marked = MarkedGraph {
        nodes: *nodes,
        edges: *edges,
        marks,
        head,
    };
    let path_ids = marked.fill(&firsts[..retained.edges], projected);
    Projected {
        retained: retained.nodes,
        projected: retained.edges,
        path_ids,
    }
}
