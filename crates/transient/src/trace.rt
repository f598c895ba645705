// The call that judges a trace and writes list 9.
ghost use Rattle.std.specs.Prelude.{◌≡◌};
ghost use Rattle.rules.specs.Refusals.{shortest};
ghost use Rattle.rules.specs.Lent.{trace_lent, findings_lent, SameFindings};
ghost use Rattle.rules.specs.Verdicts.{finding_lengths};
ghost use Rattle.rules.specs.Traces.{trace_limits, TraceCall, TraceCallFrom};

use crate::check::check_trace;
use crate::pulses::EventRow;
use lengths::shortest;
use order::repeated::sort_repeated;
use rules::answers::Refusal;
use rules::lent::{Findings, Trace};
use rules::limits::MAX_EVENTS;
use rules::transient::TransientAssessment;

// For how many entries all number lists of list 9 have room.
#[tactic(auto, unfolding(rules::specs::Verdicts::finding_lengths))]
fn findings_room(findings: &Findings<'_>) -> usize
    ensures { result ≡ shortest (finding_lengths (findings_lent findings.now)) }
{
    shortest(&[
        findings.components.len(),
        findings.polarities.len(),
        findings.units.len(),
        findings.start_ticks.len(),
        findings.end_ticks.len(),
        findings.widths.len(),
        findings.steady.len(),
        findings.baselines.len(),
        findings.starts.len(),
        findings.ends.len(),
        findings.verdicts.len(),
        findings.rationales.len(),
    ])
}

// Judges the pulses of a trace and writes a finding for each to list 9, from start on, or refuses the trace and leaves
// every list as it was.
pub fn assess_from(
    start: usize,
    trace: &Trace<'_>,
    findings: &mut Findings<'_>,
) -> Result<TransientAssessment, Refusal>
    ensures same { SameFindings findings.old findings.new }
    ensures assessed { TraceCallFrom trace_limits start (trace_lent trace.now) (findings_lent findings.old) (findings_lent findings.new) result }
{
    let accepted = check_trace(start, trace, findings_room(findings))?;
    let mut order = [0usize; MAX_EVENTS];
    let mut scratch = [0usize; MAX_EVENTS];
    let events = trace.events.components;
    sort_repeated(events, &mut order, &mut scratch);
    let row = EventRow {
        trace: accepted,
        positions: &order[..events.len()],
    };
    let (count, tallies) = row.write_findings(start, findings);
    Ok(TransientAssessment {
        findings: count as u64,
        contracts_applied: trace.contracts.components.len() as u64,
        tallies,
    })
}

// The same from the front of list 9.
#[tactic(auto, unfolding(rules::specs::Traces::check_trace))]
pub fn assess_transients(
    trace: &Trace<'_>,
    findings: &mut Findings<'_>,
) -> Result<TransientAssessment, Refusal>
    ensures same { SameFindings findings.old findings.new }
    ensures assessed { TraceCall trace_limits (trace_lent trace.now) (findings_lent findings.old) (findings_lent findings.new) result }
{
    assess_from(0, trace, findings)
}
