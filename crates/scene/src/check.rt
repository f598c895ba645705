// The checks of a scene: whether document 01 accepts it, or its first refusal.
ghost use Rattle.rules.specs.Lent.{components_lent, connections_lent};
ghost use Rattle.rules.specs.Refusals.{scene_limits, check_scene, CheckCall};
ghost use Rattle.scene.specs.Lent.{outputs_lent};

use crate::place::SceneRoom;
use rules::answers::Refusal;
use rules::lent::Scene;

// The first refusal of the scene, or that there is none. room has, for each output list that is to be written, from
// the list of number first on, the length of its shortest number list; where it is empty no list is tested. A number
// past 8 is no list of a scene and needs nothing.
pub fn check_scene(scene: &Scene<'_>, first: usize, room: &[usize]) -> Result<(), Refusal>
    ensures { CheckCall (check_scene scene_limits (components_lent scene.now.components) (connections_lent scene.now.connections) (outputs_lent scene.now first room.now)) result }
{
    let mut own = SceneRoom::new();
    own.place(scene, first, room)?;
    Ok(())
}
