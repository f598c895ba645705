// The call for C that writes lists 0 to 8.
ghost use Rattle.std.specs.Prelude.{Result, ◌≡◌, [], ◌∷◌};
ghost use Rattle.rules.specs.Lent.{analysis_lent, components_lent, connections_lent, SameScene};
ghost use Rattle.rules.specs.Refusals.{scene_limits};
ghost use Rattle.rules.specs.Analyze.{analysis_numbers, AnalyzeCall};
ghost use Rattle.rules.specs.declared.answers.Analysis.{Analysis};
ghost use Rattle.rules.specs.declared.answers.Refusal.{Refusal};

use analyze::analyze::analyze_scene;
use rules::answers::{Analysis, Refusal};
use rules::lent::{Scene, SceneLists};

// The number and place of a refusal, 0 and 0 where the scene is accepted; then how many entries of lists 0, 1 and 2 are
// used; then scope, pattern and confidence; then how many entries of lists 3 and 4 are used, how many of list 5 are 1 and
// 0, and how many of lists 6 and 7 are used. Under a refusal these are 0. C has no Result: an answer is its numbers.
#[repr(C)]
#[derive(Drop, Default)]
pub struct AnalysisNumbers {
    pub number: u32,
    pub place: u64,
    pub timed_edges: u64,
    pub devices: u64,
    pub evidence: u64,
    pub scope: u8,
    pub pattern: u8,
    pub confidence: u8,
    pub reasons: u64,
    pub feedback: u64,
    pub retained: u64,
    pub compressed: u64,
    pub projected: u64,
    pub path_ids: u64,
}

impl From<Result<Analysis, Refusal>> for AnalysisNumbers {
    ghost from_gives = { λ answer numbers. numbers.number ∷ numbers.place ∷ numbers.timed_edges ∷ numbers.devices ∷ numbers.evidence ∷ numbers.scope ∷ numbers.pattern ∷ numbers.confidence ∷ numbers.reasons ∷ numbers.feedback ∷ numbers.retained ∷ numbers.compressed ∷ numbers.projected ∷ numbers.path_ids ∷ [] ≡ analysis_numbers answer };

    fn from(answer: Result<Analysis, Refusal>) -> AnalysisNumbers {
        match answer {
            Ok(analysis) => AnalysisNumbers {
                number: 0,
                place: 0,
                timed_edges: analysis.description.timed_edges,
                devices: analysis.description.devices,
                evidence: analysis.description.evidence,
                scope: analysis.assessment.scope.into(),
                pattern: analysis.assessment.pattern.into(),
                confidence: analysis.assessment.confidence,
                reasons: analysis.assessment.reasons,
                feedback: analysis.assessment.feedback,
                retained: analysis.assessment.retained,
                compressed: analysis.assessment.compressed,
                projected: analysis.assessment.projected,
                path_ids: analysis.assessment.path_ids,
            },
            Err(refusal) => AnalysisNumbers {
                number: refusal.kind.into(),
                place: refusal.place,
                ..AnalysisNumbers::default()
            },
        }
    }
}

// analyze_scene for C.
#[unsafe(no_mangle)]
pub extern "C" fn sizhbanto_analyze_scene(
    scene: &Scene<'_>,
    lists: &mut SceneLists<'_>,
) -> AnalysisNumbers
    ensures same { SameScene lists.old lists.new }
    ensures analyzed { (answer : Result Analysis Refusal) × AnalyzeCall scene_limits (components_lent scene.now.components) (connections_lent scene.now.connections) (analysis_lent lists.old) (analysis_lent lists.new) answer × (result.number ∷ result.place ∷ result.timed_edges ∷ result.devices ∷ result.evidence ∷ result.scope ∷ result.pattern ∷ result.confidence ∷ result.reasons ∷ result.feedback ∷ result.retained ∷ result.compressed ∷ result.projected ∷ result.path_ids ∷ [] ≡ analysis_numbers answer) }
{
    AnalysisNumbers::from(analyze_scene(scene, lists))
}
