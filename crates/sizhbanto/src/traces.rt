// The trace call and recording for C.
ghost use Rattle.std.specs.Prelude.{Result, ◌≡◌, [], ◌∷◌};
ghost use Rattle.rules.specs.Lent.{findings_lent, trace_lent, SameFindings};
ghost use Rattle.rules.specs.Traces.{trace_limits, transient_numbers, transient_tallies, TraceCall};
ghost use Rattle.rules.specs.Recording.{RecordCall};
ghost use Rattle.rules.specs.declared.answers.Refusal.{Refusal};
ghost use Rattle.rules.specs.declared.transient.TransientAssessment.{TransientAssessment};
ghost use Rattle.recording.specs.Held.{record_of, recorded_numbers};

use recording::held::{Recorded, TransientRecord};
use recording::record::recorded;
use rules::answers::Refusal;
use rules::lent::{Findings, Trace};
use rules::transient::TransientAssessment;
use transient::trace::assess_transients;

// The number and place of a refusal, 0 and 0 where the trace is accepted; then how many findings were written and how many
// contracts were given; then the tally of each verdict by its number. Under a refusal these are 0. C has no Result: an
// answer is its numbers.
#[repr(C)]
#[derive(Drop, Default)]
pub struct AssessedTrace {
    pub number: u32,
    pub place: u64,
    pub findings: u64,
    pub contracts_applied: u64,
    pub tallies: [u64; 5],
}

impl From<Result<TransientAssessment, Refusal>> for AssessedTrace {
    ghost from_gives = { λ answer numbers. (numbers.number ∷ numbers.place ∷ numbers.findings ∷ numbers.contracts_applied ∷ [] ≡ transient_numbers answer) × (numbers.tallies ≡ transient_tallies answer) };

    fn from(answer: Result<TransientAssessment, Refusal>) -> AssessedTrace {
        match answer {
            Ok(assessment) => {
                // A variable: the borrow check doesn't cover an array that goes from one struct straight into another.
                let tallies = assessment.tallies;
                AssessedTrace {
                    number: 0,
                    place: 0,
                    findings: assessment.findings,
                    contracts_applied: assessment.contracts_applied,
                    tallies,
                }
            }
            Err(refusal) => AssessedTrace {
                number: refusal.kind.into(),
                place: refusal.place,
                ..AssessedTrace::default()
            },
        }
    }
}

// assess_transients for C.
#[unsafe(no_mangle)]
pub extern "C" fn sizhbanto_assess_transients(
    trace: &Trace<'_>,
    findings: &mut Findings<'_>,
) -> AssessedTrace
    ensures same { SameFindings findings.old findings.new }
    ensures assessed { (answer : Result TransientAssessment Refusal) × TraceCall trace_limits (trace_lent trace.now) (findings_lent findings.old) (findings_lent findings.new) answer × (result.number ∷ result.place ∷ result.findings ∷ result.contracts_applied ∷ [] ≡ transient_numbers answer) × (result.tallies ≡ transient_tallies answer) }
{
    AssessedTrace::from(assess_transients(trace, findings))
}

// The same numbers without the tallies, and the record after the call. C has no Result: an answer is its numbers.
#[repr(C)]
#[derive(Clone, Copy, Default)]
pub struct RecordedTrace {
    pub number: u32,
    pub place: u64,
    pub findings: u64,
    pub contracts_applied: u64,
    pub held: TransientRecord,
}

impl From<Recorded> for RecordedTrace {
    ghost from_gives = { λ recorded numbers. (numbers.number ∷ numbers.place ∷ numbers.findings ∷ numbers.contracts_applied ∷ [] ≡ recorded_numbers recorded.answer) × (numbers.held ≡ recorded.held) };

    fn from(recorded: Recorded) -> RecordedTrace {
        match recorded.answer {
            Ok(counts) => RecordedTrace {
                number: 0,
                place: 0,
                findings: counts.findings,
                contracts_applied: counts.contracts_applied,
                held: recorded.held,
            },
            Err(refusal) => RecordedTrace {
                number: refusal.kind.into(),
                place: refusal.place,
                held: recorded.held,
                ..RecordedTrace::default()
            },
        }
    }
}

// recorded for C: the record goes in and comes out by value.
#[unsafe(no_mangle)]
pub extern "C" fn sizhbanto_record_trace(
    held: TransientRecord,
    trace: &Trace<'_>,
    findings: &mut Findings<'_>,
) -> RecordedTrace
    ensures same { SameFindings findings.old findings.new }
    ensures recorded { RecordCall trace_limits (record_of held) (trace_lent trace.now) (findings_lent findings.old) (findings_lent findings.new) (result.number ∷ result.place ∷ result.findings ∷ result.contracts_applied ∷ []) (record_of result.held) }
{
    RecordedTrace::from(recorded(held, trace, findings))
}
