// Lists 5, 6 and 7 of an accepted scene, from its positions.
ghost use Rattle.rules.specs.Lent.{SameProjection, components_lent};
ghost use Rattle.projection.specs.Lent.{projection_lent};
ghost use Rattle.projection.specs.Projecting.{Projecting};
ghost use Rattle.assess.specs.Ready.{ProjectionReady, scene_nodes};

use crate::nodes::{NodeLists, fill_nodes};
use projection::lent::{Nodes, ProjectionRoom};
use projection::{Projected, steady_state_projection};
use rules::lent::{Components, ProjectionLists};
use rules::limits::{MAX_COMPONENTS, MAX_CONNECTIONS};
use scene::place::Placed;

// Writes lists 5, 6 and 7; answers how many components are retained, and how many entries of lists 6 and 7 are used.
pub(crate) fn project_scene(
    components: &Components<'_>,
    placed: &Placed<'_>,
    marks: &mut [u8],
    projected: &mut ProjectionLists<'_>,
) -> Projected
    requires { ProjectionReady (components_lent components.now) placed.now.edges.sources.now placed.now.edges.sinks.now placed.now.order.now marks.old (projection_lent projected.old) }
    ensures same { SameProjection projected.old projected.new }
    ensures projecting { Projecting (scene_nodes (components_lent components.now) placed.now.edges.sources.now placed.now.edges.sinks.now placed.now.order.now) marks.old marks.new (projection_lent projected.old) (projection_lent projected.new) result }
{
    let n = components.ids.len();
    let mut lists = NodeLists {
        low: [0; MAX_COMPONENTS],
        inverts: [0; MAX_COMPONENTS],
        compressible: [0; MAX_COMPONENTS],
    };
    fill_nodes(components, &mut lists);
    let nodes = Nodes {
        ids: components.ids,
        low: &lists.low[..n],
        high: &lists.low[..n],
        inverts: &lists.inverts[..n],
        compressible: &lists.compressible[..n],
    };
    let mut head = [0usize; MAX_COMPONENTS];
    let mut next = [0usize; MAX_CONNECTIONS];
    let mut incoming = [0usize; MAX_COMPONENTS];
    let mut firsts = [0usize; MAX_CONNECTIONS];
    let mut room = ProjectionRoom {
        head: &mut head,
        next: &mut next,
        incoming: &mut incoming,
        firsts: &mut firsts,
    };
    // the lists of an accepted scene fit
    steady_state_projection(
        &nodes,
        &placed.edges,
        placed.order,
        marks,
        projected,
        &mut room,
    )
    .unwrap()
}
