// The call that writes list 4 alone.
ghost use Rattle.std.specs.Prelude.{◌≡◌, List, ℕ, length};
ghost use Rattle.rules.specs.Feedback.{FeedbackCall};
ghost use Rattle.rules.specs.Lent.{components_lent, connections_lent};
ghost use Rattle.rules.specs.Reasons.{feedback_reason};
ghost use Rattle.rules.specs.Refusals.{scene_limits};

use crate::place::SceneRoom;
use reasons::feedback::active_feedback_components;
use rules::answers::{FeedbackListed, OutputList, Refusal};
use rules::lent::Scene;

// How many Feedback reasons there are, of the ids listed.
fn feedback_reasons(listed: usize) -> u64
    ensures { (ids : List ℕ) → listed ≡ length ids → result ≡ length (feedback_reason ids) }
{
    u64::from(0 < listed)
}

// Lists the Feedback ids of a scene, or refuses the scene and leaves the list as it was.
pub fn feedback_scene(
    scene: &Scene<'_>,
    feedback_ids: &mut [u64],
) -> Result<FeedbackListed, Refusal>
    ensures { FeedbackCall scene_limits (components_lent scene.now.components) (connections_lent scene.now.connections) feedback_ids.old feedback_ids.new result }
{
    let mut own = SceneRoom::new();
    let placed = own.place(
        scene,
        OutputList::FeedbackIds as usize,
        &[feedback_ids.len()],
    )?;
    let components = &scene.components;
    let listed = active_feedback_components(
        components.ids,
        components.kinds,
        &placed.edges,
        feedback_ids,
    )
    .unwrap();
    Ok(FeedbackListed {
        feedback: listed as u64,
        reasons: feedback_reasons(listed),
    })
}
