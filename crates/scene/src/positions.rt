// The positions of an accepted scene, for the calls that are made over them.
ghost use Rattle.std.specs.Prelude.{◌≡◌};
ghost use Rattle.rules.specs.Lent.{components_lent, connections_lent};
ghost use Rattle.rules.specs.Lists.{written};
ghost use Rattle.rules.specs.Refusals.{scene_limits, check_scene};
ghost use Rattle.scene.specs.Lent.{SamePositions, outputs_lent, positions_lent};
ghost use Rattle.scene.specs.declared.positions.Unplaced.TheVariants.{Refused};
ghost use Rattle.scene.specs.ScenePositions.{FrontsFit, ScenePositioned, lists_fit};

use crate::lent::Positions;
use crate::place::{Placed, SceneRoom};
use rules::answers::Refusal;
use rules::lent::Scene;
use rules::limits::{MAX_COMPONENTS, MAX_CONNECTIONS};

// Why a scene's positions are not written: the lists lent are too short for the limits, and nothing is tested; or a
// refusal.
#[derive(Clone, Copy, PartialEq, Eq, Debug)]
pub enum Unplaced {
    NoRoom,
    Refused(Refusal),
}

impl From<Refusal> for Unplaced {
    ghost from_gives = { λ refusal unplaced. unplaced ≡ Refused refusal };

    fn from(refusal: Refusal) -> Self {
        Unplaced::Refused(refusal)
    }
}

// Whether the lists have room for every scene within the limits.
#[tactic(auto, unfolding(crate::specs::ScenePositions::positions_fit))]
fn positions_fit(positions: &Positions<'_>) -> bool
    ensures { result ≡ lists_fit scene_limits (positions_lent positions.now) }
{
    MAX_COMPONENTS <= positions.order.len()
        && MAX_CONNECTIONS <= positions.starts.len()
        && MAX_CONNECTIONS <= positions.stops.len()
}

// Hands on the positions of a scene.
#[tactic(auto, unfolding(rules::specs::Lists::written_from))]
fn hand_on(placed: &Placed<'_>, lent: &mut Positions<'_>)
    requires { FrontsFit placed.now (positions_lent lent.old) }
    ensures same { SamePositions lent.old lent.new }
    ensures order { lent.new.order.now ≡ written lent.old.order.now placed.now.order.now }
    ensures starts { lent.new.starts.now ≡ written lent.old.starts.now placed.now.edges.sources.now }
    ensures stops { lent.new.stops.now ≡ written lent.old.stops.now placed.now.edges.sinks.now }
{
    // lent on one by one: of a part of `lent.order` itself, a proof knows the length and not the entries
    let order = &mut *lent.order;
    let starts = &mut *lent.starts;
    let stops = &mut *lent.stops;
    order[..placed.order.len()].copy_from_slice(placed.order);
    starts[..placed.edges.sources.len()].copy_from_slice(placed.edges.sources);
    stops[..placed.edges.sinks.len()].copy_from_slice(placed.edges.sinks);
}

// Tests a scene in document 01's order, with the output lists from the list of number first on, of which room has
// the shortest lengths. Where it is accepted, the ordered positions of the ids are written to the front of order, and
// the positions of the edges' ends to the fronts of starts and stops; answers how many edges there are. Under a
// refusal, and where a list is too short for the limits, the three keep their contents.
pub fn scene_positions(
    scene: &Scene<'_>,
    first: usize,
    room: &[usize],
    positions: &mut Positions<'_>,
) -> Result<usize, Unplaced>
    ensures same { SamePositions positions.old positions.new }
    ensures positioned { ScenePositioned scene_limits (components_lent scene.now.components) (connections_lent scene.now.connections) (outputs_lent scene.now first room.now) (positions_lent positions.old) (positions_lent positions.new) result }
{
    if !positions_fit(positions) {
        return Err(Unplaced::NoRoom);
    }
    // placed in a room of its own: the caller's lists are written only where the scene is accepted
    let mut own = SceneRoom::new();
    let placed = own.place(scene, first, room)?;
    hand_on(&placed, positions);
    Ok(placed.edges.sources.len())
}
