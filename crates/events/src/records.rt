// Events as a lent list of records.
ghost use Rattle.std.specs.Prelude.{◌≡◌, ◌≤◌, length, cond};
ghost use Rattle.rules.specs.Refusals.{lengths_differ};
ghost use Rattle.rules.specs.Lent.{events_lent, contracts_lent, findings_lent, SameFindings};
ghost use Rattle.rules.specs.Traces.{trace_limits, trace_lists, contract_lengths, TraceCall};
ghost use Rattle.rules.specs.declared.answers.RefusalKind.TheVariants.{LengthsDiffer, TooManyEvents};
ghost use Rattle.events.specs.Records.{events_of_records};

use rules::answers::{RecordKind, Refusal, RefusalKind};
use rules::lent::{Contracts, Events, Findings, Trace};
use rules::limits::MAX_EVENTS;
use rules::transient::TransientAssessment;
use transient::aligned::contracts_differ;
use transient::trace::assess_transients;

// tick, component, and powered: 0 or 1. Another value is refused, as in the number list.
#[repr(C)]
#[derive(Clone, Copy, PartialEq, Eq, Debug)]
pub struct BehaviorEvent {
    pub tick: u64,
    pub component: u64,
    pub powered: u8,
}

// The refusal of more events than a trace may have; of contract lists that differ in length before it.
fn too_many(count: usize, contracts: &Contracts<'_>) -> Refusal
    ensures { result ≡ cond (lengths_differ (contract_lengths (contracts_lent contracts.now))) (record { kind = LengthsDiffer; place = 3 }) (record { kind = TooManyEvents; place = count }) }
{
    if contracts_differ(contracts) {
        Refusal {
            kind: RefusalKind::LengthsDiffer,
            place: RecordKind::Contracts as u64,
        }
    } else {
        Refusal {
            kind: RefusalKind::TooManyEvents,
            place: count as u64,
        }
    }
}

// Room for the number lists of as many events as a trace may have, a list for each field, as the call on lists is lent them.
#[derive(Drop)]
struct EventRoom {
    ticks: [u64; MAX_EVENTS],
    components: [u64; MAX_EVENTS],
    powered: [u8; MAX_EVENTS],
}

impl EventRoom {
    // Writes the numbers of each record to the fronts of the lists, and answers these.
    fn read(&mut self, events: &[BehaviorEvent]) -> Events<'_>
        requires { length events.now ≤ MAX_EVENTS }
        ensures { events_lent result ≡ events_of_records events.now }
    {
        // By index: a proof knows nothing of lists that a zip over iter_mut writes.
        for (i, event) in events.iter().enumerate() {
            self.ticks[i] = event.tick;
            self.components[i] = event.component;
            self.powered[i] = event.powered;
        }
        let count = events.len();
        Events {
            ticks: &self.ticks[..count],
            components: &self.components[..count],
            powered: &self.powered[..count],
        }
    }
}

// assess_transients on a lent list of records.
pub fn assess_events(
    unit: u8,
    events: &[BehaviorEvent],
    contracts: &Contracts<'_>,
    findings: &mut Findings<'_>,
) -> Result<TransientAssessment, Refusal>
    ensures same { SameFindings findings.old findings.new }
    ensures assessed { TraceCall trace_limits (trace_lists unit (events_of_records events.now) (contracts_lent contracts.now)) (findings_lent findings.old) (findings_lent findings.new) result }
{
    let count = events.len();
    if MAX_EVENTS < count {
        return Err(too_many(count, contracts));
    }
    let mut room = EventRoom {
        ticks: [0; MAX_EVENTS],
        components: [0; MAX_EVENTS],
        powered: [0; MAX_EVENTS],
    };
    let trace = Trace {
        unit,
        events: room.read(events),
        contracts: *contracts,
    };
    assess_transients(&trace, findings)
}
