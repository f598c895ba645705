// The call for C that writes lists 3 to 8.
ghost use Rattle.std.specs.Prelude.{Result, ◌≡◌, [], ◌∷◌};
ghost use Rattle.rules.specs.Lent.{assessment_lent, components_lent, connections_lent, SameAssessment};
ghost use Rattle.rules.specs.Refusals.{scene_limits};
ghost use Rattle.rules.specs.Assess.{scene_numbers, AssessCall};
ghost use Rattle.rules.specs.declared.answers.Assessment.{Assessment};
ghost use Rattle.rules.specs.declared.answers.Refusal.{Refusal};

use assess::assess::assess_scene;
use rules::answers::{Assessment, Refusal};
use rules::lent::{AssessmentLists, Scene};

// The number and place of a refusal, 0 and 0 where the scene is accepted; then scope, pattern and confidence; then how
// many entries of lists 3 and 4 are used, how many of list 5 are 1 and 0, and how many of lists 6 and 7 are used. Under
// a refusal these are 0. C has no Result: an answer is its numbers.
#[repr(C)]
#[derive(Drop, Default)]
pub struct SceneNumbers {
    pub number: u32,
    pub place: u64,
    pub scope: u8,
    pub pattern: u8,
    pub confidence: u8,
    pub reasons: u64,
    pub feedback: u64,
    pub retained: u64,
    pub compressed: u64,
    pub projected: u64,
    pub path_ids: u64,
}

impl From<Result<Assessment, Refusal>> for SceneNumbers {
    ghost from_gives = { λ answer numbers. numbers.number ∷ numbers.place ∷ numbers.scope ∷ numbers.pattern ∷ numbers.confidence ∷ numbers.reasons ∷ numbers.feedback ∷ numbers.retained ∷ numbers.compressed ∷ numbers.projected ∷ numbers.path_ids ∷ [] ≡ scene_numbers answer };

    fn from(answer: Result<Assessment, Refusal>) -> SceneNumbers {
        match answer {
            Ok(assessment) => SceneNumbers {
                number: 0,
                place: 0,
                scope: assessment.scope.into(),
                pattern: assessment.pattern.into(),
                confidence: assessment.confidence,
                reasons: assessment.reasons,
                feedback: assessment.feedback,
                retained: assessment.retained,
                compressed: assessment.compressed,
                projected: assessment.projected,
                path_ids: assessment.path_ids,
            },
            Err(refusal) => SceneNumbers {
                number: refusal.kind.into(),
                place: refusal.place,
                ..SceneNumbers::default()
            },
        }
    }
}

// assess_scene for C.
#[unsafe(no_mangle)]
pub extern "C" fn sizhbanto_assess_scene(
    scene: &Scene<'_>,
    lists: &mut AssessmentLists<'_>,
) -> SceneNumbers
    ensures same { SameAssessment lists.old lists.new }
    ensures assessed { (answer : Result Assessment Refusal) × AssessCall scene_limits (components_lent scene.now.components) (connections_lent scene.now.connections) (assessment_lent lists.old) (assessment_lent lists.new) answer × (result.number ∷ result.place ∷ result.scope ∷ result.pattern ∷ result.confidence ∷ result.reasons ∷ result.feedback ∷ result.retained ∷ result.compressed ∷ result.projected ∷ result.path_ids ∷ [] ≡ scene_numbers answer) }
{
    SceneNumbers::from(assess_scene(scene, lists))
}
