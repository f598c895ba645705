// What is judged of the pulses of one component.
ghost use Rattle.std.specs.Prelude.{◌≡◌, cond, slice_index};
ghost use Rattle.rules.specs.Codes.{polarity_code, verdict_code, rationale_code};
ghost use Rattle.verdicts.specs.Criteria.{fits, polarity_in, alike, registered, criterion_of, Judges};

use rules::transient::{PulsePolarity, Rationale, SignalIntent, TraceTimeUnit, TransientVerdict};

// A pulse fits if its polarity has this number and its width is neither below the smallest nor above the largest. The numbers
// of verdict and rationale stand first for a pulse that does not fit, then for one that does: which of them holds is as open
// as a coin, so it is taken by index and not by a branch. The small fields stand together: bytes left free between fields are
// copied too, in pieces that overlap, which takes longer than all the rest.
#[derive(Clone, Copy)]
pub struct Criterion {
    pub smallest: u64,
    pub largest: u64,
    pub polarity: u8,
    pub verdicts: [u8; 2],
    pub rationales: [u8; 2],
}

// The number of the polarity that a pulse of one unit must have to fit an intent in another: where they differ, that of none.
fn polarity_in(unit: TraceTimeUnit, polarity: PulsePolarity, time_unit: TraceTimeUnit) -> u8
    ensures { result ≡ polarity_in unit polarity time_unit }
{
    if time_unit == unit {
        u8::from(polarity)
    } else {
        2
    }
}

impl Criterion {
    // All pulses are judged alike.
    fn alike(verdict: TransientVerdict, rationale: Rationale) -> Criterion
        ensures { result ≡ alike verdict rationale }
    {
        Criterion {
            polarity: 0,
            smallest: 0,
            largest: 0,
            verdicts: [u8::from(verdict); 2],
            rationales: [u8::from(rationale); 2],
        }
    }

    // The judgement by an intent.
    fn registered(intent: SignalIntent, unit: TraceTimeUnit) -> Criterion
        ensures { result ≡ registered intent unit }
    {
        match intent {
            SignalIntent::SteadyStateOnly => Criterion::alike(
                TransientVerdict::TransientDeviation,
                Rationale::SteadyStateOnly,
            ),
            SignalIntent::Stable { powered: wanted } => Criterion {
                polarity: u8::from(PulsePolarity::Low),
                smallest: 0,
                largest: u64::MAX,
                verdicts: [u8::from(TransientVerdict::HazardConfirmed); 2],
                rationales: [
                    u8::from(Rationale::Stable {
                        wanted,
                        polarity: PulsePolarity::High,
                    }),
                    u8::from(Rationale::Stable {
                        wanted,
                        polarity: PulsePolarity::Low,
                    }),
                ],
            },
            SignalIntent::IntentionalPulse {
                polarity,
                time_unit,
                minimum_width_ticks,
                maximum_width_ticks,
            } => Criterion {
                polarity: polarity_in(unit, polarity, time_unit),
                smallest: minimum_width_ticks,
                largest: maximum_width_ticks,
                verdicts: [
                    u8::from(TransientVerdict::HazardConfirmed),
                    u8::from(TransientVerdict::IntentionalPulse),
                ],
                rationales: [
                    u8::from(Rationale::PulseDiffers),
                    u8::from(Rationale::PulseFits),
                ],
            },
            SignalIntent::MaximumPulseWidth {
                polarity,
                time_unit,
                maximum_width_ticks,
            } => Criterion {
                polarity: polarity_in(unit, polarity, time_unit),
                smallest: 0,
                largest: maximum_width_ticks,
                verdicts: [
                    u8::from(TransientVerdict::HazardConfirmed),
                    u8::from(TransientVerdict::PulseObserved),
                ],
                rationales: [
                    u8::from(Rationale::PastTolerance),
                    u8::from(Rationale::WithinTolerance),
                ],
            },
        }
    }

    // The judgement by the intent that is registered, if one is, on pulses of a trace in this unit.
    pub fn of(intent: Option<SignalIntent>, unit: TraceTimeUnit) -> Criterion
        ensures criterion { result ≡ criterion_of intent unit }
        ensures judges { Judges result intent unit }
    {
        match intent {
            None => Criterion::alike(TransientVerdict::HazardCandidate, Rationale::NoIntent),
            Some(registered) => Criterion::registered(registered, unit),
        }
    }

    // The numbers of verdict and rationale for a pulse of this polarity, by its number, and width.
    pub fn classify(&self, polarity: u8, width: u64) -> (u8, u8)
        ensures verdict { result.0 ≡ slice_index self.now.verdicts (cond (fits self.now polarity width) 1 0) }
        ensures rationale { result.1 ≡ slice_index self.now.rationales (cond (fits self.now polarity width) 1 0) }
    {
        let fits = (polarity == self.polarity) & (self.smallest <= width) & (width <= self.largest);
        let i = usize::from(fits);
        (self.verdicts[i], self.rationales[i])
    }
}
