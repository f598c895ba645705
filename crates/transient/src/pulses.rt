// The pulses of a row of events: windows of three successive events of one component.
ghost use Rattle.std.specs.Prelude.{◌≡◌, ◌+◌, ◌<◌, length};
ghost use Rattle.rules.specs.Codes.{unit_of};
ghost use Rattle.rules.specs.Lent.{events_lent};
ghost use Rattle.rules.specs.Windows.{event_in, window_pulse, pulse_at};
ghost use Rattle.transient.specs.Row.{Inside, EndsPulses};
ghost use Rattle.verdicts.specs.Read.{event_read, pulse_read};

use crate::accepted::AcceptedTrace;
use verdicts::pulse::{Pulse, Window};

// Positions of a trace's events.
#[derive(Clone, Copy)]
pub(crate) struct EventRow<'a> {
    pub trace: AcceptedTrace<'a>,
    pub positions: &'a [usize],
    ghost inside: { Inside (length trace.aligned.lent.events.ticks.now) positions.now },
}

impl EventRow<'_> {
    // The event at a place of the row and the two after it.
    fn window(self, k: usize) -> Window
        requires { k + 2 < length self.positions.now }
        ensures first { event_read result.first ≡ event_in (events_lent self.entry.trace.aligned.lent.events) self.entry.positions.now k }
        ensures second { event_read result.second ≡ event_in (events_lent self.entry.trace.aligned.lent.events) self.entry.positions.now (k + 1) }
        ensures third { event_read result.third ≡ event_in (events_lent self.entry.trace.aligned.lent.events) self.entry.positions.now (k + 2) }
    {
        let trace = self.trace.aligned;
        Window {
            first: trace.event(self.positions[k]),
            second: trace.event(self.positions[k + 1]),
            third: trace.event(self.positions[k + 2]),
        }
    }

    // Whether a pulse begins at a place. Where the row rises by component, the events between two of one component are
    // of that component too.
    #[tactic(auto, unfolding(rules::specs::Windows::window_pulse))]
    fn begins_pulse(self, k: usize) -> bool
        requires { k + 2 < length self.positions.now }
        ensures { result ≡ window_pulse (events_lent self.entry.trace.aligned.lent.events) self.entry.positions.now k }
    {
        let window = self.window(k);
        window.first.component == window.third.component && window.is_pulse()
    }

    // The same without a branch, for a loop that goes on alike whether one begins or not.
    #[tactic(auto, unfolding(rules::specs::Windows::window_pulse, rules::specs::Pulses::is_pulse))]
    pub(crate) fn begins_pulse_branchless(self, k: usize) -> bool
        requires { k + 2 < length self.positions.now }
        ensures { result ≡ window_pulse (events_lent self.entry.trace.aligned.lent.events) self.entry.positions.now k }
    {
        let window = self.window(k);
        let steady = window.first.is_powered();
        (window.first.component == window.third.component)
            & (steady == window.third.is_powered())
            & (steady != window.second.is_powered())
            & (window.second.tick < window.third.tick)
    }

    // The pulse that begins at a place, if one does.
    #[tactic(auto, unfolding(rules::specs::Windows::pulse_at))]
    pub(crate) fn pulse(self, k: usize) -> Pulse
        requires { k + 2 < length self.positions.now }
        ensures { pulse_read result ≡ pulse_at (unit_of self.entry.trace.aligned.lent.unit) (events_lent self.entry.trace.aligned.lent.events) self.entry.positions.now k }
    {
        self.window(k).pulse(self.trace.unit)
    }

    // The place after the last one at which a pulse begins, or 0. Where components are many and pulses few, it goes far back,
    // and at nearly each place the components differ: so there the branches of begins_pulse are guessed right.
    pub(crate) fn pulses_end(self) -> usize
        ensures { EndsPulses (events_lent self.entry.trace.aligned.lent.events) self.entry.positions.now result }
    {
        let mut end = self.positions.len().saturating_sub(2);
        while 0 < end && !self.begins_pulse(end - 1) {
            end -= 1;
        }
        end
    }
}
