// From the bytes of a scene's text to the bytes that the program prints for it.
ghost use Rattle.std.specs.Prelude.{◌≡◌, ◌≤◌, MatchResult, length};
ghost use Rattle.rules.specs.Lent.{components_lent, connections_lent};
ghost use Rattle.rules.specs.Scene.{scene_of};
ghost use Rattle.rules.specs.Refusals.{scene_limits, check_scene};
ghost use Rattle.rules.specs.Report.{report_checked, report_of, ReportCall};
ghost use Rattle.text.specs.Page.{Put};
ghost use Rattle.text.specs.Answers.{FieldsRead, Fresh, PutOrRefused, checked_lent, scene_lent};

use crate::page::Page;
use crate::reading::read_scene;
use crate::rows::{ComponentRows, ConnectionRows};
use assess::assess::assess_scene;
use rules::answers::{Refusal, RefusalKind};
use rules::lent::{AssessmentLists, LabelLists, ProjectionLists, ReasonLists, Scene};
use rules::limits::{MAX_COMPONENTS, MAX_CONNECTIONS, MAX_TEXT};

// Room for the longest report: proved in crates/laws, ReportRoom.
pub const REPORT_ROOM: usize = 1048576;

// What lists 3 and 7 need at the limits.
const REASON_ROOM: usize = 2 * MAX_COMPONENTS + 1;

const PATH_ROOM: usize = 2 * MAX_CONNECTIONS + MAX_COMPONENTS;

// Puts the report of a scene on a page, or finds why the scene is refused.
fn put_scene(page: &mut Page<'_>, scene: &Scene<'_>) -> Result<(), Refusal>
    requires fields_read { FieldsRead (components_lent scene.now.components) (connections_lent scene.now.connections) }
    requires fresh { Fresh page.old }
    ensures { PutOrRefused (report_checked (checked_lent scene.now) (scene_lent scene.now)) page.old page.new result }
{
    let mut lists = AssessmentLists {
        reasons: ReasonLists {
            kinds: &mut [0; REASON_ROOM],
            components: &mut [0; REASON_ROOM],
            blocks: &mut [0; REASON_ROOM],
            minimums: &mut [0; REASON_ROOM],
            maximums: &mut [0; REASON_ROOM],
        },
        feedback_ids: &mut [0; MAX_COMPONENTS],
        marks: &mut [0; MAX_COMPONENTS],
        projected: ProjectionLists {
            sources: &mut [0; MAX_CONNECTIONS],
            sinks: &mut [0; MAX_CONNECTIONS],
            inverted: &mut [0; MAX_CONNECTIONS],
            minimums: &mut [0; MAX_CONNECTIONS],
            maximums: &mut [0; MAX_CONNECTIONS],
            starts: &mut [0; MAX_CONNECTIONS],
            lengths: &mut [0; MAX_CONNECTIONS],
            path_ids: &mut [0; PATH_ROOM],
        },
        labels: LabelLists {
            settled: &mut [0; MAX_COMPONENTS],
            lows: &mut [0; MAX_COMPONENTS],
            highs: &mut [0; MAX_COMPONENTS],
        },
    };
    let assessment = assess_scene(scene, &mut lists)?;
    page.put_report(&assessment, scene.components.ids, &lists);
    Ok(())
}

// Puts the report of a text on a page, or finds why the text or its scene is refused.
fn put_text(page: &mut Page<'_>, text: &[u8]) -> Result<(), Refusal>
    requires { Fresh page.old }
    ensures { PutOrRefused (report_of text.now) page.old page.new result }
{
    if text.len() > MAX_TEXT {
        return Err(Refusal {
            kind: RefusalKind::TextNotInForm,
            place: 0,
        });
    }
    let mut components = ComponentRows::new();
    let mut connections = ConnectionRows::new();
    read_scene(text, &mut components, &mut connections)?;
    let scene = Scene {
        components: components.lent(),
        connections: connections.lent(),
    };
    put_scene(page, &scene)
}

// Puts what the program prints for a text on a page.
fn put_answer(page: &mut Page<'_>, text: &[u8])
    requires { Fresh page.old }
    ensures { Put (report_of text.now) page.old page.new }
{
    if let Err(refusal) = put_text(page, text) {
        page.put_refusal(refusal);
    }
}

// Writes to the front of `out` what the program prints for a text, and answers how many bytes that is.
pub fn report_text(text: &[u8], out: &mut [u8; REPORT_ROOM]) -> usize
    ensures { ReportCall text.now out.old out.new result }
{
    let mut page = Page { bytes: out, end: 0 };
    put_answer(&mut page, text);
    page.end
}
