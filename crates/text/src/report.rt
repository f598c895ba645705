// The report and the refusal, put on a page.
ghost use Rattle.std.specs.Prelude.{◌<◌, ◌+◌, ◌≡◌, length};
ghost use Rattle.rules.specs.Bytes.{bytes};
ghost use Rattle.rules.specs.Text.{field_line};
ghost use Rattle.rules.specs.Lists.{rows};
ghost use Rattle.rules.specs.Lent.{assessment_lent};
ghost use Rattle.rules.specs.Report.{scope_text, pattern_text, refusal_text};
ghost use Rattle.text.specs.Page.{Room, Put};
ghost use Rattle.text.specs.ReportLists.{reason_rows, projected_rows, label_rows, ReasonsLent, EdgesLent, LabelsLent, printed_lists, report_by, ReportWithin};

use crate::page::Page;
use projection::projected_path::projected_path;
use rules::answers::{Assessment, BehaviorPattern, ReasonKind, Refusal, TemporalScope};
use rules::lent::{AssessmentLists, LabelLists, ProjectionLists, ReasonLists};

impl Page<'_> {
    // Puts the line of the scope.
    fn put_scope(&mut self, scope: TemporalScope)
        requires { Room (field_line (bytes "scope=") (scope_text scope)) self.old }
        ensures { Put (field_line (bytes "scope=") (scope_text scope)) self.old self.new }
    {
        match scope {
            TemporalScope::SteadyStateSafe => self.put(b"scope=steady_state_safe\n"),
            TemporalScope::TimingSensitive => self.put(b"scope=timing_sensitive\n"),
            TemporalScope::TemporalRequired => self.put(b"scope=temporal_required\n"),
        }
    }

    // Puts the line of the pattern; a candidate's ids are those of list 4.
    fn put_pattern(&mut self, pattern: BehaviorPattern, feedback: &[u64])
        requires { Room (field_line (bytes "pattern=") (pattern_text feedback.now pattern)) self.old }
        ensures { Put (field_line (bytes "pattern=") (pattern_text feedback.now pattern)) self.old self.new }
    {
        match pattern {
            BehaviorPattern::DelayedPath => self.put(b"pattern=delayed_path\n"),
            BehaviorPattern::ClockCandidate => self.put_ids_line(b"pattern=clock:", feedback),
            BehaviorPattern::LatchCandidate => self.put_ids_line(b"pattern=latch:", feedback),
            BehaviorPattern::Nothing => self.put(b"pattern=none\n"),
        }
    }

    // Puts one reason. Lists 3, 6 and 8 are as the C interface has them, a list for each field: so an entry is named by its
    // place, and how many there are by the call's answer. What is none of the kinds' numbers is printed as the last. Numbers
    // are widened with `as`, here and in put_edge, put_label and put_refusal: `u64::from` is no plainer, and took a step more
    // in four proofs for each.
    fn put_reason(&mut self, feedback: &[u64], reasons: &ReasonLists<'_>, k: usize)
        requires within { ReasonsLent (k + 1) reasons.now }
        requires room { Room (reason_rows feedback.now reasons.now k) self.old }
        ensures { Put (reason_rows feedback.now reasons.now k) self.old self.new }
    {
        let component = reasons.components[k];
        let kind = ReasonKind::try_from(reasons.kinds[k]).unwrap_or(ReasonKind::LockedRepeater);
        match kind {
            ReasonKind::UnequalReconvergentDelay => {
                self.put_named(b"reason=unequal:", component);
                self.put_named(b":", reasons.minimums[k] as u64);
                self.put_line(b":", reasons.maximums[k] as u64);
            }
            ReasonKind::FeedbackLoop => self.put_ids_line(b"reason=feedback:", feedback),
            ReasonKind::StatefulOrMechanicalDevice => self.put_line(b"reason=stateful:", component),
            ReasonKind::LockedRepeater => self.put_line(b"reason=locked:", component),
        }
    }

    // Puts the first so many reasons. Lists 6 and 8 have loops like this one: a common one would take what puts an entry as a
    // closure that writes the page, with a clause on the page before and after, and be no plainer.
    fn put_reasons(&mut self, count: usize, feedback: &[u64], reasons: &ReasonLists<'_>)
        requires within { ReasonsLent count reasons.now }
        requires room { Room (rows (reason_rows feedback.now reasons.now) count) self.old }
        ensures { Put (rows (reason_rows feedback.now reasons.now) count) self.old self.new }
    {
        for k in 0..count {
            self.put_reason(feedback, reasons, k);
        }
    }

    // Puts one projected edge.
    fn put_edge(&mut self, edges: &ProjectionLists<'_>, k: usize)
        requires within { EdgesLent (k + 1) edges.now }
        requires room { Room (projected_rows edges.now k) self.old }
        ensures { Put (projected_rows edges.now k) self.old self.new }
    {
        self.put_line(b"source=", edges.sources[k]);
        self.put_line(b"sink=", edges.sinks[k]);
        self.put_line(b"inverted=", edges.inverted[k] as u64);
        self.put_line(b"minimum=", edges.minimums[k] as u64);
        self.put_line(b"maximum=", edges.maximums[k] as u64);
        let path = projected_path(edges.path_ids, edges.starts, edges.lengths, k);
        self.put_ids_line(b"path=", path);
    }

    // Puts the first so many projected edges.
    fn put_edges(&mut self, count: usize, edges: &ProjectionLists<'_>)
        requires within { EdgesLent count edges.now }
        requires room { Room (rows (projected_rows edges.now) count) self.old }
        ensures { Put (rows (projected_rows edges.now) count) self.old self.new }
    {
        for k in 0..count {
            self.put_edge(edges, k);
        }
    }

    // Puts one component's label.
    fn put_label(&mut self, ids: &[u64], labels: &LabelLists<'_>, k: usize)
        requires within { (k < length ids.now) × LabelsLent (k + 1) labels.now }
        requires room { Room (label_rows ids.now labels.now k) self.old }
        ensures { Put (label_rows ids.now labels.now k) self.old self.new }
    {
        self.put_line(b"component=", ids[k]);
        if labels.settled[k] == 0 {
            return self.put(b"label=unsettled\n");
        }
        self.put_named(b"label=", labels.lows[k] as u64);
        self.put_line(b",", labels.highs[k] as u64);
    }

    // Puts every component's label.
    fn put_labels(&mut self, ids: &[u64], labels: &LabelLists<'_>)
        requires within { LabelsLent (length ids.now) labels.now }
        requires room { Room (rows (label_rows ids.now labels.now) (length ids.now)) self.old }
        ensures { Put (rows (label_rows ids.now labels.now) (length ids.now)) self.old self.new }
    {
        for k in 0..ids.len() {
            self.put_label(ids, labels, k);
        }
    }

    // Puts the report of an assessment and of the lists that came with it.
    pub(crate) fn put_report(
        &mut self,
        answer: &Assessment,
        ids: &[u64],
        lists: &AssessmentLists<'_>,
    )
        requires within { ReportWithin answer.now ids.now (printed_lists (assessment_lent lists.now)) }
        requires room { Room (report_by answer.now ids.now (printed_lists (assessment_lent lists.now))) self.old }
        ensures { Put (report_by answer.now ids.now (printed_lists (assessment_lent lists.now))) self.old self.new }
    {
        let feedback = &lists.feedback_ids[..answer.feedback as usize];
        self.put_scope(answer.scope);
        self.put_line(b"reasons=", answer.reasons);
        self.put_reasons(answer.reasons as usize, feedback, &lists.reasons);
        self.put_line(b"retained=", answer.retained);
        self.put_line(b"compressed=", answer.compressed);
        self.put_line(b"projected=", answer.projected);
        self.put_edges(answer.projected as usize, &lists.projected);
        self.put_pattern(answer.pattern, feedback);
        self.put_labels(ids, &lists.labels);
    }

    // Puts a refusal.
    pub(crate) fn put_refusal(&mut self, refusal: Refusal)
        requires { Room (refusal_text refusal) self.old }
        ensures { Put (refusal_text refusal) self.old self.new }
    {
        self.put_line(b"refusal=", u32::from(refusal.kind) as u64);
        self.put_line(b"place=", refusal.place);
    }
}
