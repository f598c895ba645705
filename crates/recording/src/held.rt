// The running record: how many traces and findings it holds, and the tallies of these.
ghost use Rattle.std.specs.Prelude.{◌≡◌, suc, ◌+◌, ◌^◌, ◌<◌, nat_eq};
ghost use Rattle.rules.specs.Lists.{sum};
ghost use Rattle.rules.specs.Traces.{trace_limits};
ghost use Rattle.rules.specs.Recording.{record_false, add_tallies};
ghost use Rattle.recording.specs.Held.{record_by, record_of, Addable};

use rules::answers::Refusal;
use rules::limits::MAX_FINDINGS_EACH;
use rules::transient::TransientAssessment;

// Traces held, findings held, and a tally for each verdict by its number.
#[repr(C)]
#[derive(Clone, Copy, PartialEq, Eq, Debug, Default)]
pub struct TransientRecord {
    pub traces: u64,
    pub findings: u64,
    pub tallies: [u64; 5],
}

// How many findings a trace has, and how many contracts were given.
#[derive(Clone, Copy, PartialEq, Eq, Debug)]
pub struct TransientCounts {
    pub findings: u64,
    pub contracts_applied: u64,
}

impl From<TransientAssessment> for TransientCounts {
    ghost from_gives = { λ assessment counts. (counts.findings ≡ assessment.findings) × (counts.contracts_applied ≡ assessment.contracts_applied) };

    fn from(assessment: TransientAssessment) -> TransientCounts {
        TransientCounts {
            findings: assessment.findings,
            contracts_applied: assessment.contracts_applied,
        }
    }
}

// What a recording answers, with the record after the call.
#[derive(Clone, Copy, PartialEq, Eq, Debug)]
pub struct Recorded {
    pub answer: Result<TransientCounts, Refusal>,
    pub held: TransientRecord,
}

// Whether five tallies sum to a number.
#[tactic(auto, unfolding(rules::specs::Lists::sum))]
fn sum_is(tallies: [u64; 5], total: u64) -> bool
    ensures { result ≡ nat_eq (sum tallies) total }
{
    let sum: u128 = tallies.iter().map(|tally| u128::from(*tally)).sum();
    sum == u128::from(total)
}

// Two rows of tallies, added.
#[tactic(auto, unfolding(rules::specs::Recording::add_tallies, rules::specs::Lists::indices, rules::specs::Lists::from))]
fn add_tallies(held: [u64; 5], added: [u64; 5]) -> [u64; 5]
    requires { Addable held added }
    ensures { result ≡ add_tallies held added }
{
    std::array::from_fn(|k| held[k] + added[k])
}

// 15: the tallies don't sum to the findings held, or these are more than the traces held can have.
#[tactic(auto, unfolding(rules::specs::Recording::record_false))]
pub(crate) fn record_false(traces: u64, findings: u64, tallies: [u64; 5]) -> bool
    ensures { result ≡ record_false trace_limits (record_by traces findings tallies) }
{
    !sum_is(tallies, findings)
        || u128::from(MAX_FINDINGS_EACH) * u128::from(traces) < u128::from(findings)
}

// The record with one trace more.
pub(crate) fn grown(
    traces: u64,
    findings: u64,
    tallies: [u64; 5],
    assessment: TransientAssessment,
) -> TransientRecord
    requires traces { traces < 64 }
    requires findings { findings + assessment.findings < 2 ^ 64 }
    requires tallies { Addable tallies assessment.tallies }
    ensures { record_of result ≡ record_by (suc traces) (findings + assessment.findings) (add_tallies tallies assessment.tallies) }
{
    TransientRecord {
        traces: traces + 1,
        findings: findings + assessment.findings,
        tallies: add_tallies(tallies, assessment.tallies),
    }
}
