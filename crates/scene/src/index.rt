// The rows of a scene tested and indexed: its components by their ids, its edges by the positions of their ends.
ghost use Rattle.std.specs.Prelude.{◌≡◌, ◌≤◌, length, take};
ghost use Rattle.rules.specs.Lent.{components_lent, connections_lent};
ghost use Rattle.rules.specs.Ordered.{ordered};
ghost use Rattle.rules.specs.Refusals.{scene_limits};
ghost use Rattle.scene.specs.Lent.{position_lists};
ghost use Rattle.scene.specs.Indexed.{IndexRoom, Sized, Tested, rows_found};

use crate::components::{check_components, first_repeat};
use crate::connections::look_up_ends;
use order::sort::sort_positions;
use rules::answers::Refusal;
use rules::lent::Scene;
use rules::limits::MAX_COMPONENTS;

// Writes the ordered positions of the ids to the front of order.
fn order_ids(ids: &[u64], order: &mut [usize])
    requires { (length ids.now ≤ scene_limits.components) × (scene_limits.components ≤ length order.old) }
    ensures { take (length ids.now) order.new ≡ ordered ids.now }
{
    let mut scratch = [0usize; MAX_COMPONENTS];
    sort_positions(ids, order, &mut scratch);
}

// Tests the components, then the connections, of lists whose lengths are tested. Where they are accepted, order has
// the ordered positions of the ids, and starts and stops have the positions of the edges' ends: three lists, since the
// first is read while the others are written. Answers how many edges there are.
pub(crate) fn index_rows(
    scene: &Scene<'_>,
    order: &mut [usize],
    starts: &mut [usize],
    stops: &mut [usize],
) -> Result<usize, Refusal>
    requires { Sized (components_lent scene.now.components) (connections_lent scene.now.connections) × IndexRoom (position_lists order.old starts.old stops.old) }
    ensures { Tested (rows_found (components_lent scene.now.components) (connections_lent scene.now.connections)) scene.now.components.ids.now (connections_lent scene.now.connections) (position_lists order.new starts.new stops.new) result }
{
    let ids = scene.components.ids;
    order_ids(ids, order);
    let order = &order[..ids.len()];
    check_components(&scene.components, first_repeat(ids, order))?;
    look_up_ends(ids, order, &scene.connections, starts, stops)
}
