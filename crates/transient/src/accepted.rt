// A trace that the tests accepted.
ghost use Rattle.std.specs.Prelude.{◌≡◌};
ghost use Rattle.rules.specs.Codes.{unit_of};
ghost use Rattle.rules.specs.Lent.{contracts_lent};
ghost use Rattle.rules.specs.Ordered.{Rises};
ghost use Rattle.rules.specs.Verdicts.{contracts_of, design_intent};
ghost use Rattle.transient.specs.Sought.{AllBelow, SplitAt};

use crate::aligned::AlignedTrace;
use rules::transient::{SignalIntent, TraceTimeUnit};

// Its unit is read, and the components of its contracts rise.
#[derive(Clone, Copy)]
pub(crate) struct AcceptedTrace<'a> {
    pub aligned: AlignedTrace<'a>,
    pub unit: TraceTimeUnit,
    ghost read: { unit ≡ unit_of aligned.lent.unit },
    ghost rises: { Rises aligned.lent.contracts.components.now },
}

impl AcceptedTrace<'_> {
    // How many contracts have components below this one, where the first ones, up to a place, are known to.
    pub(crate) fn contracts_below(self, from: usize, component: u64) -> usize
        requires { AllBelow self.aligned.lent.contracts.components.now component from }
        ensures { SplitAt self.entry.aligned.lent.contracts.components.now component result }
    {
        let components = self.aligned.lent.contracts.components;
        for i in from..components.len() {
            if component <= components[i] {
                return i;
            }
        }
        components.len()
    }

    // The intent that is registered for a component, if one is, where so many contracts have components below it.
    pub(crate) fn design_intent(self, below: usize, component: u64) -> Option<SignalIntent>
        requires { SplitAt self.aligned.lent.contracts.components.now component below }
        ensures { result ≡ design_intent (contracts_of (contracts_lent self.entry.aligned.lent.contracts)) component }
    {
        let &found = self.aligned.lent.contracts.components.get(below)?;
        if found != component {
            return None;
        }
        Some(self.aligned.contract(below).signal_intent())
    }
}
