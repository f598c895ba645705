// The entries of list 9.
ghost use Rattle.std.specs.Prelude.{◌≡◌, ◌+◌, ◌^◌, ◌<◌, IsTrue, if◌then◌else◌, length, slice_index, slice_set};
ghost use Rattle.rules.specs.Lists.{written_from};
ghost use Rattle.rules.specs.Lent.{findings_lent, SameFindings};
ghost use Rattle.rules.specs.Verdicts.{tallies, FindingsListed};
ghost use Rattle.transient.specs.Judged.{findings_in, FindingRoom, PulseWritten, PulsesListed, PulsesHeld, JudgementWritten, JudgementsListed};
ghost use Rattle.verdicts.specs.Read.{pulse_read};

use crate::pulses::EventRow;
use crate::sought::SoughtCriterion;
use rules::lent::Findings;
use verdicts::pulse::Pulse;

// Writes a pulse to a place of list 9, but for what is judged of it.
fn write_pulse(pulse: Pulse, at: usize, findings: &mut Findings<'_>)
    requires { FindingRoom at 1 (findings_lent findings.old) }
    ensures same { SameFindings findings.old findings.new }
    ensures written { PulseWritten at (pulse_read pulse) (findings_lent findings.old) (findings_lent findings.new) }
{
    findings.components[at] = pulse.component;
    findings.polarities[at] = u8::from(pulse.polarity);
    findings.units[at] = u8::from(pulse.unit);
    findings.start_ticks[at] = pulse.start_tick;
    findings.end_ticks[at] = pulse.end_tick;
    findings.widths[at] = pulse.width;
    findings.steady[at] = u8::from(pulse.steady);
    findings.baselines[at] = pulse.baseline_event;
    findings.starts[at] = pulse.start_event;
    findings.ends[at] = pulse.end_event;
}

// Writes what is judged of a pulse, by its numbers, to the same place.
fn write_judgement(verdict: u8, rationale: u8, at: usize, findings: &mut Findings<'_>)
    requires { FindingRoom at 1 (findings_lent findings.old) }
    ensures same { SameFindings findings.old findings.new }
    ensures written { JudgementWritten at verdict rationale (findings_lent findings.old) (findings_lent findings.new) }
{
    findings.verdicts[at] = verdict;
    findings.rationales[at] = rationale;
}

// A tally, with one more where the verdict counted is its own.
fn counted(tally: u64, own: bool) -> u64
    requires { IsTrue own → tally + 1 < 2 ^ 64 }
    ensures { result ≡ (if own then tally + 1 else tally) }
{
    if own { tally + 1 } else { tally }
}

// The tallies with one more finding of the verdict of this number. The places are constants, so that the five counts stay in
// registers: at a place that is computed the array would go through memory twice for each finding.
#[inline(always)]
fn count_verdict(tallies: [u64; 5], verdict: u8) -> [u64; 5]
    requires number { verdict < 5 }
    requires few { slice_index tallies verdict + 1 < 2 ^ 64 }
    ensures { result ≡ slice_set tallies verdict (slice_index tallies verdict + 1) }
{
    let [observed, deviation, candidate, confirmed, intentional] = tallies;
    [
        counted(observed, verdict == 0),
        counted(deviation, verdict == 1),
        counted(candidate, verdict == 2),
        counted(confirmed, verdict == 3),
        counted(intentional, verdict == 4),
    ]
}

impl EventRow<'_> {
    // Writes the pulses from start on, and answers how many there are. Each place up to the last pulse is written as if a
    // pulse began there, and counted only if one does: the next is written over it if not, and the last one stays. So there
    // is no branch on whether one begins, which is as open as a coin where components are many.
    fn write_pulses(self, start: usize, findings: &mut Findings<'_>) -> usize
        requires { FindingRoom start (length self.positions.now) (findings_lent findings.old) }
        ensures same { SameFindings findings.old findings.new }
        ensures listed { PulsesListed (written_from start) (findings_in self.entry) (findings_lent findings.old) (findings_lent findings.new) }
        ensures counted { result ≡ length (findings_in self.entry) }
    {
        let mut at = start;
        for k in 0..self.pulses_end() {
            let begins = self.begins_pulse_branchless(k);
            write_pulse(self.pulse(k), at, findings);
            at += usize::from(begins);
        }
        at - start
    }

    // Writes what is judged of the pulses from start on, of which there are so many; answers the tallies.
    fn judge_pulses(self, start: usize, count: usize, findings: &mut Findings<'_>) -> [u64; 5]
        requires counted { count ≡ length (findings_in self) }
        requires room { FindingRoom start count (findings_lent findings.old) }
        requires held { PulsesHeld start (findings_in self) (findings_lent findings.old) }
        ensures same { SameFindings findings.old findings.new }
        ensures listed { JudgementsListed (written_from start) (findings_in self.entry) (findings_lent findings.old) (findings_lent findings.new) }
        ensures tallied { result ≡ tallies (findings_in self.entry) }
    {
        let mut tallies = [0u64; 5];
        let mut sought = SoughtCriterion::seek(&self.trace, 0, 0);
        for j in 0..count {
            let at = start + j;
            let (verdict, rationale) = sought.judge(
                findings.components[at],
                findings.polarities[at],
                findings.widths[at],
            );
            write_judgement(verdict, rationale, at, findings);
            let counted = count_verdict(tallies, verdict);
            tallies = counted;
        }
        tallies
    }

    // Writes a finding for each pulse, from start on; answers how many there are, and the tallies. What is written of the
    // pulses and what is judged of them are two loops: in one there are more lists than the processor keeps at hand.
    pub(crate) fn write_findings(
        self,
        start: usize,
        findings: &mut Findings<'_>,
    ) -> (usize, [u64; 5])
        requires { FindingRoom start (length self.positions.now) (findings_lent findings.old) }
        ensures same { SameFindings findings.old findings.new }
        ensures listed { FindingsListed (written_from start) (findings_in self.entry) (findings_lent findings.old) (findings_lent findings.new) }
        ensures counted { result.0 ≡ length (findings_in self.entry) }
        ensures tallied { result.1 ≡ tallies (findings_in self.entry) }
    {
        let count = self.write_pulses(start, findings);
        let tallies = self.judge_pulses(start, count, findings);
        (count, tallies)
    }
}
