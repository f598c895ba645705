// The calls for C that only check a scene, and that write list 4 alone.
ghost use Rattle.std.specs.Prelude.{Result, ◌≡◌, [], ◌∷◌};
ghost use Rattle.rules.specs.Feedback.{FeedbackCall, feedback_numbers};
ghost use Rattle.rules.specs.Lent.{components_lent, connections_lent};
ghost use Rattle.scene.specs.Lent.{outputs_lent};
ghost use Rattle.rules.specs.Refusals.{scene_limits, check_scene, refusal_number, refusal_place};
ghost use Rattle.rules.specs.declared.answers.FeedbackListed.{FeedbackListed};
ghost use Rattle.rules.specs.declared.answers.Refusal.{Refusal};

use rules::answers::{FeedbackListed, Refusal};
use rules::lent::Scene;
use scene::check::check_scene;
use scene::feedback::feedback_scene;

// The number and place of a refusal; 0 and 0 where the scene is accepted. C has no Result: an answer is its numbers.
#[repr(C)]
#[derive(Drop, Default)]
pub struct CheckedNumbers {
    pub number: u32,
    pub place: u64,
}

impl From<Result<(), Refusal>> for CheckedNumbers {
    ghost from_gives = { λ checked numbers. (numbers.number ≡ refusal_number checked) × (numbers.place ≡ refusal_place checked) };

    fn from(checked: Result<(), Refusal>) -> CheckedNumbers {
        match checked {
            Ok(()) => CheckedNumbers::default(),
            Err(refusal) => CheckedNumbers {
                number: refusal.kind.into(),
                place: refusal.place,
            },
        }
    }
}

// check_scene for C.
#[unsafe(no_mangle)]
pub extern "C" fn sizhbanto_check_scene(
    scene: &Scene<'_>,
    first: usize,
    room: &[usize],
) -> CheckedNumbers
    ensures number { result.number ≡ refusal_number (check_scene scene_limits (components_lent scene.now.components) (connections_lent scene.now.connections) (outputs_lent scene.now first room.now)) }
    ensures place { result.place ≡ refusal_place (check_scene scene_limits (components_lent scene.now.components) (connections_lent scene.now.connections) (outputs_lent scene.now first room.now)) }
{
    CheckedNumbers::from(check_scene(scene, first, room))
}

// The number and place of a refusal, 0 and 0 where the scene is accepted; then how many ids are listed and how many
// Feedback reasons there are, 0 and 0 under a refusal. C has no Result: an answer is its numbers.
#[repr(C)]
#[derive(Drop, Default)]
pub struct FeedbackNumbers {
    pub number: u32,
    pub place: u64,
    pub feedback: u64,
    pub reasons: u64,
}

impl From<Result<FeedbackListed, Refusal>> for FeedbackNumbers {
    ghost from_gives = { λ answer numbers. numbers.number ∷ numbers.place ∷ numbers.feedback ∷ numbers.reasons ∷ [] ≡ feedback_numbers answer };

    fn from(answer: Result<FeedbackListed, Refusal>) -> FeedbackNumbers {
        match answer {
            Ok(listed) => FeedbackNumbers {
                number: 0,
                place: 0,
                feedback: listed.feedback,
                reasons: listed.reasons,
            },
            Err(refusal) => FeedbackNumbers {
                number: refusal.kind.into(),
                place: refusal.place,
                ..FeedbackNumbers::default()
            },
        }
    }
}

// feedback_scene for C.
#[unsafe(no_mangle)]
pub extern "C" fn sizhbanto_feedback_scene(
    scene: &Scene<'_>,
    feedback_ids: &mut [u64],
) -> FeedbackNumbers
    ensures { (answer : Result FeedbackListed Refusal) × FeedbackCall scene_limits (components_lent scene.now.components) (connections_lent scene.now.connections) feedback_ids.old feedback_ids.new answer × (result.number ∷ result.place ∷ result.feedback ∷ result.reasons ∷ [] ≡ feedback_numbers answer) }
{
    FeedbackNumbers::from(feedback_scene(scene, feedback_ids))
}
