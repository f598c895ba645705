// The call that writes lists 0, 1 and 2.
ghost use Rattle.std.specs.Prelude.{Result, Ok, ◌≡◌};
ghost use Rattle.rules.specs.Lent.{components_lent, connections_lent, description_lent, SameDescription};
ghost use Rattle.rules.specs.Refusals.{accepted, scene_limits};
ghost use Rattle.rules.specs.Scene.{scene_of};
ghost use Rattle.rules.specs.Describe.{describe_checked, DescribeCall, DescribedBy};
ghost use Rattle.scene.specs.Placed.{PlacedRows};
ghost use Rattle.describe.specs.Rows.{description_room};

use crate::devices::list_devices;
use crate::edges::list_timed_edges;
use crate::evidence::list_evidence;
use lengths::shortest;
use rules::answers::{Description, OutputList, Refusal};
use rules::lent::{DescriptionLists, Scene};
use scene::place::{Placed, SceneRoom};

// The shortest lengths of lists 0, 1 and 2.
pub fn description_room(lists: &DescriptionLists<'_>) -> [usize; 3]
    ensures { result ≡ description_room (description_lent lists.now) }
{
    let edges = &lists.edges;
    let devices = &lists.devices;
    let evidence = &lists.evidence;
    [
        shortest(&[
            edges.sources.len(),
            edges.sinks.len(),
            edges.minimums.len(),
            edges.maximums.len(),
            edges.behaviors.len(),
        ]),
        shortest(&[
            devices.components.len(),
            devices.xs.len(),
            devices.ys.len(),
            devices.zs.len(),
            devices.semantics.len(),
            devices.delays.len(),
        ]),
        shortest(&[
            evidence.kinds.len(),
            evidence.sources.len(),
            evidence.sinks.len(),
            evidence.components.len(),
            evidence.blocks.len(),
        ]),
    ]
}

// Writes the timed edges, devices and evidence of an accepted scene, whose lists fit.
pub fn describe_placed(
    scene: &Scene<'_>,
    placed: &Placed<'_>,
    lists: &mut DescriptionLists<'_>,
) -> Description
    requires placed { PlacedRows scene.now.components.ids.now (connections_lent scene.now.connections) placed.now }
    requires accepted { describe_checked scene_limits (components_lent scene.now.components) (connections_lent scene.now.connections) (description_lent lists.old) ≡ accepted }
    ensures same { SameDescription lists.old lists.new }
    ensures described { DescribedBy accepted (scene_of (components_lent scene.now.components) (connections_lent scene.now.connections)) (description_lent lists.old) (description_lent lists.new) (Ok result) }
{
    list_timed_edges(&scene.components, &placed.edges, &mut lists.edges);
    let count = list_devices(&scene.components, &mut lists.devices);
    list_evidence(scene, &mut lists.evidence);
    Description {
        timed_edges: placed.edges.sources.len() as u64,
        devices: count as u64,
        evidence: (scene.connections.sources.len() + count) as u64,
    }
}

// Writes the timed edges, devices and evidence of a scene, or refuses the scene and leaves every list as it was.
pub fn describe_scene(
    scene: &Scene<'_>,
    lists: &mut DescriptionLists<'_>,
) -> Result<Description, Refusal>
    ensures same { SameDescription lists.old lists.new }
    ensures described { DescribeCall scene_limits (components_lent scene.now.components) (connections_lent scene.now.connections) (description_lent lists.old) (description_lent lists.new) result }
{
    let mut own = SceneRoom::new();
    let room = description_room(lists);
    let placed = own.place(scene, OutputList::TimedEdges as usize, &room)?;
    Ok(describe_placed(scene, &placed, lists))
}
