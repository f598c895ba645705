// A trace whose number lists are as long as one another.
ghost use Rattle.std.specs.Prelude.{◌≡◌, ◌<◌, length};
ghost use Rattle.rules.specs.Refusals.{lengths_differ};
ghost use Rattle.rules.specs.Lent.{events_lent, contracts_lent, trace_lent};
ghost use Rattle.rules.specs.Pulses.{EventsAligned, event_at};
ghost use Rattle.rules.specs.Verdicts.{ContractsAligned, contract_at};
ghost use Rattle.rules.specs.Traces.{event_lengths, contract_lengths};
ghost use Rattle.verdicts.specs.Read.{event_read, contract_read};

use lengths::lengths_differ;
use rules::answers::{RecordKind, Refusal, RefusalKind};
use rules::lent::{Contracts, Events, Trace};
use verdicts::contract::Contract;
use verdicts::pulse::Event;

// Whether the lists of events differ in length. Like contracts_differ but for the lists: what the two share is lengths_differ.
#[tactic(auto, unfolding(rules::specs::Traces::event_lengths))]
fn events_differ(events: &Events<'_>) -> bool
    ensures { result ≡ lengths_differ (event_lengths (events_lent events.now)) }
{
    lengths_differ(&[
        events.ticks.len(),
        events.components.len(),
        events.powered.len(),
    ])
}

// Whether the lists of contracts differ in length.
#[tactic(auto, unfolding(rules::specs::Traces::contract_lengths))]
pub fn contracts_differ(contracts: &Contracts<'_>) -> bool
    ensures { result ≡ lengths_differ (contract_lengths (contracts_lent contracts.now)) }
{
    lengths_differ(&[
        contracts.components.len(),
        contracts.intents.len(),
        contracts.powered.len(),
        contracts.polarities.len(),
        contracts.units.len(),
        contracts.smallest.len(),
        contracts.largest.len(),
    ])
}

// The lists of events are as long as one another, and so are those of contracts.
#[derive(Clone, Copy)]
pub(crate) struct AlignedTrace<'a> {
    pub lent: Trace<'a>,
    ghost events: { EventsAligned (events_lent lent.events) },
    ghost contracts: { ContractsAligned (contracts_lent lent.contracts) },
}

impl<'a> AlignedTrace<'a> {
    ghost use Rattle.std.specs.Result.{IfOk};
    ghost use Rattle.rules.specs.Refusals.{first_refusal};
    ghost use Rattle.transient.specs.Tested.{checked_of, length_tests};

    // Tests the lengths: 8.
    #[tactic(auto, unfolding(rules::specs::Refusals::first_refusal, rules::specs::Traces::event_lengths, rules::specs::Traces::contract_lengths, rules::specs::Lists::any))]
    pub(crate) fn align(trace: &Trace<'a>) -> Result<AlignedTrace<'a>, Refusal>
        ensures checked { checked_of result ≡ first_refusal (length_tests (trace_lent trace.now)) }
        ensures trace { IfOk result (λ t. t.lent ≡ trace.now) }
    {
        if events_differ(&trace.events) {
            return Err(Refusal {
                kind: RefusalKind::LengthsDiffer,
                place: RecordKind::Events as u64,
            });
        }
        if contracts_differ(&trace.contracts) {
            return Err(Refusal {
                kind: RefusalKind::LengthsDiffer,
                place: RecordKind::Contracts as u64,
            });
        }
        Ok(AlignedTrace { lent: *trace })
    }

    // The event at a place of the lists.
    #[tactic(auto, unfolding(rules::specs::Pulses::event_at))]
    pub(crate) fn event(self, i: usize) -> Event
        requires { i < length self.lent.events.ticks.now }
        ensures { event_read result ≡ event_at (events_lent self.entry.lent.events) i }
    {
        let events = self.lent.events;
        Event {
            index: i,
            tick: events.ticks[i],
            component: events.components[i],
            powered: events.powered[i],
        }
    }

    // The contract at a place of the lists.
    #[tactic(auto, unfolding(rules::specs::Verdicts::contract_at))]
    pub(crate) fn contract(self, i: usize) -> Contract
        requires { i < length self.lent.contracts.components.now }
        ensures { contract_read result ≡ contract_at (contracts_lent self.entry.lent.contracts) i }
    {
        let contracts = self.lent.contracts;
        Contract {
            component: contracts.components[i],
            intent: contracts.intents[i],
            powered: contracts.powered[i],
            polarity: contracts.polarities[i],
            unit: contracts.units[i],
            smallest: contracts.smallest[i],
            largest: contracts.largest[i],
        }
    }
}
