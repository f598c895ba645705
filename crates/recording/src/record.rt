// The call that judges a trace, appends its findings to list 9 and lets the record grow by them.
ghost use Rattle.rules.specs.Lent.{trace_lent, findings_lent, SameFindings};
ghost use Rattle.rules.specs.Verdicts.{finding_lengths};
ghost use Rattle.rules.specs.Traces.{trace_limits, AssessedBy};
ghost use Rattle.rules.specs.Recording.{check_recording, RecordCall};
ghost use Rattle.recording.specs.Held.{record_by, record_of, recorded_numbers};

use crate::held::{Recorded, TransientCounts, TransientRecord, grown, record_false};
use rules::answers::{Refusal, RefusalKind};
use rules::lent::{Findings, Trace};
use rules::limits::MAX_TRACES;
use rules::transient::TransientAssessment;
use transient::trace::assess_from;

// Tests a record, 15 and 13, then judges a trace and writes its findings to list 9 after those held.
#[tactic(auto, unfolding(rules::specs::Recording::check_recording, rules::specs::Recording::record_tests, rules::specs::Refusals::first_refusal))]
fn assess_recording(
    traces: u64,
    held: u64,
    tallies: [u64; 5],
    trace: &Trace<'_>,
    findings: &mut Findings<'_>,
) -> Result<TransientAssessment, Refusal>
    ensures same { SameFindings findings.old findings.new }
    ensures assessed { AssessedBy (check_recording trace_limits (record_by traces held tallies) (trace_lent trace.now) (finding_lengths (findings_lent findings.old))) held (trace_lent trace.now) (findings_lent findings.old) (findings_lent findings.new) result }
{
    if record_false(traces, held, tallies) {
        return Err(Refusal {
            kind: RefusalKind::RecordFalse,
            place: 0,
        });
    }
    if MAX_TRACES <= traces {
        return Err(Refusal {
            kind: RefusalKind::RecordFull,
            place: 0,
        });
    }
    assess_from(held as usize, trace, findings)
}

// Judges a trace and appends its findings to list 9 after those held, given a record field by field; answers the record as
// it is then. A refusal leaves the record and every list as they were.
fn recorded_from(
    traces: u64,
    held: u64,
    tallies: [u64; 5],
    trace: &Trace<'_>,
    findings: &mut Findings<'_>,
) -> Recorded
    ensures same { SameFindings findings.old findings.new }
    ensures recorded { RecordCall trace_limits (record_by traces held tallies) (trace_lent trace.now) (findings_lent findings.old) (findings_lent findings.new) (recorded_numbers result.answer) (record_of result.held) }
{
    match assess_recording(traces, held, tallies, trace, findings) {
        Err(refusal) => Recorded {
            answer: Err(refusal),
            held: TransientRecord {
                traces,
                findings: held,
                tallies,
            },
        },
        Ok(assessment) => Recorded {
            answer: Ok(TransientCounts::from(assessment)),
            held: grown(traces, held, tallies, assessment),
        },
    }
}

impl TransientRecord {
    // The call on a record that is lent. A refusal leaves the record and every list as they were.
    pub fn record_trace(
        &mut self,
        trace: &Trace<'_>,
        findings: &mut Findings<'_>,
    ) -> Result<TransientCounts, Refusal>
        ensures same { SameFindings findings.old findings.new }
        ensures recorded { RecordCall trace_limits (record_of self.old) (trace_lent trace.now) (findings_lent findings.old) (findings_lent findings.new) (recorded_numbers result) (record_of self.new) }
    {
        let TransientRecord {
            traces,
            findings: held,
            tallies,
        } = *self;
        let after = recorded_from(traces, held, tallies, trace, findings);
        *self = after.held;
        after.answer
    }
}

// The call on a record by value: it answers the record as it is then. A refusal leaves the record and every list as they were.
pub fn recorded(held: TransientRecord, trace: &Trace<'_>, findings: &mut Findings<'_>) -> Recorded
    ensures same { SameFindings findings.old findings.new }
    ensures recorded { RecordCall trace_limits (record_of held) (trace_lent trace.now) (findings_lent findings.old) (findings_lent findings.new) (recorded_numbers result.answer) (record_of result.held) }
{
    let TransientRecord {
        traces,
        findings: count,
        tallies,
    } = held;
    recorded_from(traces, count, tallies, trace, findings)
}
