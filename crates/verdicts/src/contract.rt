// What a contract's values say: whether they are in range, and which intent they stand for.
ghost use Rattle.std.specs.Prelude.{◌≡◌};
ghost use Rattle.rules.specs.Traces.{contract_out_of_range};
ghost use Rattle.rules.specs.Verdicts.{intent_of};
ghost use Rattle.verdicts.specs.Read.{contract_read};

use rules::transient::{IntentKind, PulsePolarity, SignalIntent, TraceTimeUnit};
use tables::codes::{polarity_of, unit_of};

// The values of a contract. Those that its intent doesn't use are not looked at. They stay numbers, since each is an entry of
// a list that the C interface lends, and may be any number until it is tested.
#[derive(Clone, Copy, PartialEq, Eq, Debug)]
pub struct Contract {
    pub component: u64,
    pub intent: u8,
    pub powered: u8,
    pub polarity: u8,
    pub unit: u8,
    pub smallest: u64,
    pub largest: u64,
}

impl Contract {
    // Whether a value that the intent uses is out of its range.
    #[tactic(auto, unfolding(rules::specs::Traces::contract_out_of_range))]
    pub fn out_of_range(self) -> bool
        ensures { result ≡ contract_out_of_range (contract_read self) }
    {
        match IntentKind::try_from(self.intent) {
            Ok(IntentKind::SteadyStateOnly) => false,
            Ok(IntentKind::Stable) => 1 < self.powered,
            Ok(IntentKind::IntentionalPulse | IntentKind::MaximumPulseWidth) => {
                PulsePolarity::try_from(self.polarity).is_err()
                    || TraceTimeUnit::try_from(self.unit).is_err()
            }
            Err(_) => true,
        }
    }

    // The intent that the values stand for, that of the last kind where they name none.
    #[tactic(auto, unfolding(rules::specs::Verdicts::intent_of))]
    pub fn signal_intent(self) -> SignalIntent
        ensures { result ≡ intent_of (contract_read self) }
    {
        match IntentKind::try_from(self.intent).unwrap_or(IntentKind::MaximumPulseWidth) {
            IntentKind::SteadyStateOnly => SignalIntent::SteadyStateOnly,
            IntentKind::Stable => SignalIntent::Stable {
                powered: 0 < self.powered,
            },
            IntentKind::IntentionalPulse => SignalIntent::IntentionalPulse {
                polarity: polarity_of(self.polarity),
                time_unit: unit_of(self.unit),
                minimum_width_ticks: self.smallest,
                maximum_width_ticks: self.largest,
            },
            IntentKind::MaximumPulseWidth => SignalIntent::MaximumPulseWidth {
                polarity: polarity_of(self.polarity),
                time_unit: unit_of(self.unit),
                maximum_width_ticks: self.largest,
            },
        }
    }
}
