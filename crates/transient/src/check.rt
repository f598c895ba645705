// The tests of a trace: 8, 9, 10, 7, 11 and 12.
ghost use Rattle.std.specs.Prelude.{◌≡◌, [], ◌∷◌, ◌+◌, length, nat_lt};
ghost use Rattle.std.specs.Result.{IfOk};
ghost use Rattle.rules.specs.Lent.{trace_lent};
ghost use Rattle.rules.specs.Refusals.{first_refusal};
ghost use Rattle.rules.specs.Traces.{trace_limits, trace_tests};
ghost use Rattle.transient.specs.Tested.{checked_of, size_tests};

use crate::accepted::AcceptedTrace;
use crate::aligned::AlignedTrace;
use rules::answers::{OutputList, Refusal, RefusalKind};
use rules::lent::Trace;
use rules::limits::{MAX_CONTRACTS, MAX_EVENTS};

// Whether a list of so many entries is too short for n of them from start on. The need may be past every number that
// the list's length can have.
fn too_short(room: usize, start: usize, n: usize) -> bool
    ensures { result ≡ nat_lt room (start + n) }
{
    start.checked_add(n).is_none_or(|need| room < need)
}

// 9, 10 and 7.
#[tactic(auto, unfolding(rules::specs::Refusals::first_refusal, rules::specs::Traces::event_count, rules::specs::Traces::contract_count, rules::specs::Lists::any))]
fn check_sizes(start: usize, trace: &Trace<'_>, room: usize) -> Result<(), Refusal>
    ensures { result ≡ first_refusal (size_tests trace_limits (trace_lent trace.now) (start + length trace.now.events.ticks.now) room) }
{
    let events = trace.events.ticks.len();
    if MAX_EVENTS < events {
        return Err(Refusal {
            kind: RefusalKind::TooManyEvents,
            place: events as u64,
        });
    }
    let contracts = trace.contracts.components.len();
    if MAX_CONTRACTS < contracts {
        return Err(Refusal {
            kind: RefusalKind::TooManyContracts,
            place: contracts as u64,
        });
    }
    if too_short(room, start, events) {
        return Err(Refusal {
            kind: RefusalKind::ListTooShort,
            place: OutputList::Findings as u64,
        });
    }
    Ok(())
}

// Tests a trace whose findings are to be written from start on to a list with room for so many entries.
#[tactic(auto, unfolding(rules::specs::Refusals::first_refusal, rules::specs::Traces::trace_tests, rules::specs::Lists::any))]
pub(crate) fn check_trace<'a>(
    start: usize,
    trace: &Trace<'a>,
    room: usize,
) -> Result<AcceptedTrace<'a>, Refusal>
    ensures checked { checked_of result ≡ first_refusal (trace_tests trace_limits (trace_lent trace.now) (start + length trace.now.events.ticks.now) (room ∷ [])) }
    ensures trace { IfOk result (λ t. t.aligned.lent ≡ trace.now) }
{
    let aligned = AlignedTrace::align(trace)?;
    check_sizes(start, trace, room)?;
    let unit = aligned.check_values()?;
    Ok(AcceptedTrace { aligned, unit })
}
