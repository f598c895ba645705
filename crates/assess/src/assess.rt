// The call that writes lists 3 to 8.
ghost use Rattle.std.specs.Prelude.{Result, Ok, ◌≡◌, ◌≤◌, length};
ghost use Rattle.rules.specs.Lent.{SameAssessment, SameLabels, SameReasons, assessment_lent, components_lent, connections_lent};
ghost use Rattle.rules.specs.Refusals.{accepted, scene_limits};
ghost use Rattle.rules.specs.Scene.{scene_of};
ghost use Rattle.rules.specs.Assess.{assess_checked, AssessCall, AssessedBy};
ghost use Rattle.reasons.specs.Assessed.{Assessable, OutputRoom, ReasonsFound};
ghost use Rattle.reasons.specs.Lent.{labels_lent, reasons_lent};
ghost use Rattle.assess.specs.Answer.{assessed_of};
ghost use Rattle.assess.specs.Ready.{assessment_room};
ghost use Rattle.scene.specs.Placed.{PlacedRows};

use crate::project::project_scene;
use lengths::shortest;
use projection::Projected;
use reasons::{ReasonsAssessed, assess_reasons};
use rules::answers::{Assessment, OutputList, Refusal};
use rules::lent::{AssessmentLists, Components, LabelLists, ReasonLists, Scene};
use scene::place::{Placed, SceneRoom};

// The shortest lengths of lists 3 to 8.
#[tactic(auto, unfolding(crate::specs::Ready::assessment_room))]
pub fn assessment_room(lists: &AssessmentLists<'_>) -> [usize; 6]
    ensures { result ≡ assessment_room (assessment_lent lists.now) }
{
    let reasons = &lists.reasons;
    let projected = &lists.projected;
    let labels = &lists.labels;
    [
        shortest(&[
            reasons.kinds.len(),
            reasons.components.len(),
            reasons.blocks.len(),
            reasons.minimums.len(),
            reasons.maximums.len(),
        ]),
        lists.feedback_ids.len(),
        lists.marks.len(),
        shortest(&[
            projected.sources.len(),
            projected.sinks.len(),
            projected.inverted.len(),
            projected.minimums.len(),
            projected.maximums.len(),
            projected.starts.len(),
            projected.lengths.len(),
        ]),
        projected.path_ids.len(),
        shortest(&[labels.settled.len(), labels.lows.len(), labels.highs.len()]),
    ]
}

// Lists 3, 4 and 8 of an accepted scene, whose lists fit.
fn reason_scene(
    components: &Components<'_>,
    placed: &Placed<'_>,
    reasons: &mut ReasonLists<'_>,
    feedback_ids: &mut [u64],
    labels: &mut LabelLists<'_>,
) -> ReasonsAssessed
    requires { Assessable (components_lent components.now) placed.now.edges.sources.now placed.now.edges.sinks.now placed.now.order.now × OutputRoom (length components.now.ids.now) (reasons_lent reasons.old) feedback_ids.old (labels_lent labels.old) }
    ensures same_reasons { SameReasons reasons.old reasons.new }
    ensures same_labels { SameLabels labels.old labels.new }
    ensures found { ReasonsFound (components_lent components.now) placed.now.edges.sources.now placed.now.edges.sinks.now placed.now.order.now (reasons_lent reasons.old) feedback_ids.old (labels_lent labels.old) (reasons_lent reasons.new) feedback_ids.new (labels_lent labels.new) result }
{
    let edges = &placed.edges;
    assess_reasons(
        components,
        edges,
        placed.order,
        reasons,
        feedback_ids,
        labels,
    )
    .unwrap()
}

// The assessment of n components.
fn assessed(n: usize, reasons: ReasonsAssessed, projected: Projected) -> Assessment
    requires { projected.retained ≤ n }
    ensures { result ≡ assessed_of n reasons projected }
{
    Assessment {
        scope: reasons.scope,
        pattern: reasons.pattern,
        confidence: 100,
        reasons: reasons.reasons as u64,
        feedback: reasons.feedback as u64,
        retained: projected.retained as u64,
        compressed: (n - projected.retained) as u64,
        projected: projected.projected as u64,
        path_ids: projected.path_ids as u64,
    }
}

// Writes the reasons, Feedback ids, marks, projected edges, paths and labels of an accepted scene, whose lists fit.
pub fn assess_placed(
    scene: &Scene<'_>,
    placed: &Placed<'_>,
    lists: &mut AssessmentLists<'_>,
) -> Assessment
    requires placed { PlacedRows scene.now.components.ids.now (connections_lent scene.now.connections) placed.now }
    requires accepted { assess_checked scene_limits (components_lent scene.now.components) (connections_lent scene.now.connections) (assessment_lent lists.old) ≡ accepted }
    ensures same { SameAssessment lists.old lists.new }
    ensures assessed { AssessedBy accepted (scene_of (components_lent scene.now.components) (connections_lent scene.now.connections)) (assessment_lent lists.old) (assessment_lent lists.new) (Ok result) }
{
    let components = &scene.components;
    let told = reason_scene(
        components,
        placed,
        &mut lists.reasons,
        lists.feedback_ids,
        &mut lists.labels,
    );
    let counts = project_scene(components, placed, lists.marks, &mut lists.projected);
    assessed(components.ids.len(), told, counts)
}

// Writes the reasons, Feedback ids, marks, projected edges, paths and labels of a scene, or refuses the scene and
// leaves every list as it was.
pub fn assess_scene(
    scene: &Scene<'_>,
    lists: &mut AssessmentLists<'_>,
) -> Result<Assessment, Refusal>
    ensures same { SameAssessment lists.old lists.new }
    ensures assessed { AssessCall scene_limits (components_lent scene.now.components) (connections_lent scene.now.connections) (assessment_lent lists.old) (assessment_lent lists.new) result }
{
    let mut own = SceneRoom::new();
    let room = assessment_room(lists);
    let placed = own.place(scene, OutputList::Reasons as usize, &room)?;
    Ok(assess_placed(scene, &placed, lists))
}
