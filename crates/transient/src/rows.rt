// The tests of events and contracts, one by one: 11 and 12.
ghost use Rattle.std.specs.Prelude.{◌≡◌, ◌<◌, length, map, nat_lt, position};
ghost use Rattle.std.specs.Result.{IfOk};
ghost use Rattle.rules.specs.Lists.{indices};
ghost use Rattle.rules.specs.Codes.{unit_of};
ghost use Rattle.rules.specs.Lent.{trace_lent, contracts_lent, events_lent};
ghost use Rattle.rules.specs.Refusals.{first_refusal, rows};
ghost use Rattle.rules.specs.Traces.{not_above_before, event_test, contract_tests, value_tests};
ghost use Rattle.rules.specs.declared.answers.RefusalKind.TheVariants.{TraceOutOfRange};
ghost use Rattle.transient.specs.Tested.{checked_of};

use crate::aligned::AlignedTrace;
use rules::answers::{Refusal, RefusalKind};
use rules::transient::TraceTimeUnit;

// 11 at a place: the unit has place 0, an event and a contract its own.
fn out_of_range(place: usize) -> Refusal
    ensures { result ≡ record { kind = TraceOutOfRange; place = place } }
{
    Refusal {
        kind: RefusalKind::TraceOutOfRange,
        place: place as u64,
    }
}

// Whether the component of a contract is not above the one before.
#[tactic(auto, unfolding(rules::specs::Traces::not_above_before))]
fn not_above_before(components: &[u64], i: usize) -> bool
    requires { i < length components.now }
    ensures { result ≡ not_above_before components.now i }
{
    0 < i && components[i] <= components[i - 1]
}

// The place of the first level that is neither 0 nor 1.
fn first_bad_level(levels: &[u8]) -> Option<usize>
    ensures { result ≡ position (λ level. nat_lt 1 level) levels.now }
{
    levels.iter().position(|&level| 1 < level)
}

impl AlignedTrace<'_> {
    // 11 for the events, in order.
    fn check_events(self) -> Result<(), Refusal>
        ensures { result ≡ first_refusal (map (event_test (events_lent self.entry.lent.events)) (indices (length self.entry.lent.events.ticks.now))) }
    {
        match first_bad_level(self.lent.events.powered) {
            Some(i) => Err(out_of_range(i)),
            None => Ok(()),
        }
    }

    // Contracts one by one: 11, then 12. By index, since a contract is one entry of each of seven lists, and beside it only the
    // component before is looked at.
    fn check_contracts(self) -> Result<(), Refusal>
        ensures { result ≡ first_refusal (rows (contract_tests (contracts_lent self.entry.lent.contracts)) (length self.entry.lent.contracts.components.now)) }
    {
        let components = self.lent.contracts.components;
        for i in 0..components.len() {
            if self.contract(i).out_of_range() {
                return Err(out_of_range(i));
            }
            if not_above_before(components, i) {
                return Err(Refusal {
                    kind: RefusalKind::ContractsNotRising,
                    place: i as u64,
                });
            }
        }
        Ok(())
    }

    // 11 and 12: the unit, which it answers, then the events, then the contracts.
    #[tactic(auto, unfolding(rules::specs::Refusals::first_refusal))]
    pub(crate) fn check_values(self) -> Result<TraceTimeUnit, Refusal>
        ensures checked { checked_of result ≡ first_refusal (value_tests (trace_lent self.entry.lent)) }
        ensures unit { IfOk result (λ unit. unit ≡ unit_of self.entry.lent.unit) }
    {
        let Ok(unit) = TraceTimeUnit::try_from(self.lent.unit) else {
            return Err(out_of_range(0));
        };
        self.check_events()?;
        self.check_contracts()?;
        Ok(unit)
    }
}
