// Events, and the pulse that three successive ones of a component make.
ghost use Rattle.std.specs.Prelude.{◌≡◌};
ghost use Rattle.rules.specs.Pulses.{is_powered, is_pulse, pulse_of};
ghost use Rattle.verdicts.specs.Read.{event_read, pulse_read};

use rules::transient::{PulsePolarity, TraceTimeUnit};

// An event, with its place in the trace. Any number but 0 stands for powered, which stays a number, since it is an entry of a
// list that the C interface lends.
#[derive(Clone, Copy, PartialEq, Eq, Debug)]
pub struct Event {
    pub index: usize,
    pub tick: u64,
    pub component: u64,
    pub powered: u8,
}

impl Event {
    pub fn is_powered(self) -> bool
        ensures { result ≡ is_powered self.powered }
    {
        0 < self.powered
    }
}

// A pulse: from the start event, which is the first of its level, to the end event.
#[derive(Clone, Copy, PartialEq, Eq, Debug)]
pub struct Pulse {
    pub component: u64,
    pub polarity: PulsePolarity,
    pub unit: TraceTimeUnit,
    pub start_tick: u64,
    pub end_tick: u64,
    pub width: u64,
    pub steady: bool,
    pub baseline_event: usize,
    pub start_event: usize,
    pub end_event: usize,
}

// Three successive events of a component.
#[derive(Clone, Copy, PartialEq, Eq, Debug)]
pub struct Window {
    pub first: Event,
    pub second: Event,
    pub third: Event,
}

impl Window {
    // Whether the three make a pulse.
    #[tactic(auto, unfolding(rules::specs::Pulses::is_pulse))]
    pub fn is_pulse(self) -> bool
        ensures { result ≡ is_pulse (event_read self.first) (event_read self.second) (event_read self.third) }
    {
        let steady = self.first.is_powered();
        steady == self.third.is_powered()
            && steady != self.second.is_powered()
            && self.second.tick < self.third.tick
    }

    // The pulse that the three make. It is High where the second is powered; where the third is not later, it has no width.
    #[tactic(auto, unfolding(rules::specs::Pulses::pulse_of))]
    pub fn pulse(self, unit: TraceTimeUnit) -> Pulse
        ensures { pulse_read result ≡ pulse_of unit (event_read self.first) (event_read self.second) (event_read self.third) }
    {
        let polarity = if self.second.is_powered() {
            PulsePolarity::High
        } else {
            PulsePolarity::Low
        };
        Pulse {
            component: self.second.component,
            polarity,
            unit,
            start_tick: self.second.tick,
            end_tick: self.third.tick,
            width: self.third.tick.saturating_sub(self.second.tick),
            steady: self.first.is_powered(),
            baseline_event: self.first.index,
            start_event: self.second.index,
            end_event: self.third.index,
        }
    }
}
