// Room for the positions of every scene within the limits, and the positions of the scene that is placed in it.
ghost use Rattle.std.specs.Prelude.{◌≡◌};
ghost use Rattle.rules.specs.Lent.{components_lent, connections_lent};
ghost use Rattle.rules.specs.Refusals.{check_scene, scene_limits};
ghost use Rattle.scene.specs.Lent.{outputs_lent};
ghost use Rattle.scene.specs.Placed.{ScenePlaced, room_lists, blank_lists};

use crate::index::index_rows;
use crate::sizes::check_sizes;
use graph::edges::Edges;
use rules::answers::Refusal;
use rules::lent::Scene;
use rules::limits::{MAX_COMPONENTS, MAX_CONNECTIONS};

// Arrays as long as the limits: there is no heap.
#[derive(Drop)]
pub struct SceneRoom {
    order: [usize; MAX_COMPONENTS],
    starts: [usize; MAX_CONNECTIONS],
    stops: [usize; MAX_CONNECTIONS],
}

// An accepted scene's edges over positions, and the positions of its ids in order.
#[derive(Clone, Copy)]
pub struct Placed<'a> {
    pub edges: Edges<'a>,
    pub order: &'a [usize],
}

impl SceneRoom {
    pub fn new() -> Self
        ensures { room_lists result ≡ blank_lists }
    {
        SceneRoom {
            order: [0; MAX_COMPONENTS],
            starts: [0; MAX_CONNECTIONS],
            stops: [0; MAX_CONNECTIONS],
        }
    }

    /// Tests a scene in the order of the refusals, with the output lists from the list of number `first` on, of which
    /// `room` has the shortest lengths, and places it where it is accepted.
    ///
    /// What the room holds afterwards is open, under a refusal too: only the `Placed` reads it, and a room that holds
    /// anything serves the next call.
    pub fn place(
        &mut self,
        scene: &Scene<'_>,
        first: usize,
        room: &[usize],
    ) -> Result<Placed<'_>, Refusal>
        ensures { ScenePlaced (check_scene scene_limits (components_lent scene.now.components) (connections_lent scene.now.connections) (outputs_lent scene.now first room.now)) scene.now.components.ids.now (connections_lent scene.now.connections) result }
    {
        check_sizes(scene, first, room)?;
        let count = index_rows(scene, &mut self.order, &mut self.starts, &mut self.stops)?;
        let sources = &self.starts[..count];
        let sinks = &self.stops[..count];
        let edges = Edges { sources, sinks };
        let order = &self.order[..scene.components.ids.len()];
        Ok(Placed { edges, order })
    }
}
