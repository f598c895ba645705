// The call that writes lists 0 to 8.
ghost use Rattle.std.specs.Prelude.{◌≡◌};
ghost use Rattle.rules.specs.Lent.{analysis_lent, components_lent, connections_lent, SameScene};
ghost use Rattle.rules.specs.Analyze.{AnalyzeCall};
ghost use Rattle.rules.specs.Refusals.{scene_limits};
ghost use Rattle.analyze.specs.Analyze.{analysis_room};

use assess::assess::{assess_placed, assessment_room};
use describe::describe::{describe_placed, description_room};
use rules::answers::{Analysis, OutputList, Refusal};
use rules::lent::{Scene, SceneLists};
use scene::place::SceneRoom;

// The shortest lengths of lists 0 to 8.
fn analysis_room(lists: &SceneLists<'_>) -> [usize; 9]
    ensures { result ≡ analysis_room (analysis_lent lists.now) }
{
    let [edges, devices, evidence] = description_room(&lists.description);
    let [reasons, feedback_ids, marks, projected, path_ids, labels] = assessment_room(
        &lists.assessment,
    );
    [
        edges,
        devices,
        evidence,
        reasons,
        feedback_ids,
        marks,
        projected,
        path_ids,
        labels,
    ]
}

// Writes lists 0 to 8 of a scene, or refuses the scene and leaves every list as it was.
pub fn analyze_scene(scene: &Scene<'_>, lists: &mut SceneLists<'_>) -> Result<Analysis, Refusal>
    ensures same { SameScene lists.old lists.new }
    ensures analyzed { AnalyzeCall scene_limits (components_lent scene.now.components) (connections_lent scene.now.connections) (analysis_lent lists.old) (analysis_lent lists.new) result }
{
    let mut own = SceneRoom::new();
    let room = analysis_room(lists);
    let placed = own.place(scene, OutputList::TimedEdges as usize, &room)?;
    let description = describe_placed(scene, &placed, &mut lists.description);
    let assessment = assess_placed(scene, &placed, &mut lists.assessment);
    Ok(Analysis {
        description,
        assessment,
    })
}
