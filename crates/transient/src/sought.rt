// The criteria of one component after the other.
ghost use Rattle.std.specs.Prelude.{◌≡◌};
ghost use Rattle.rules.specs.Lent.{contracts_lent};
ghost use Rattle.rules.specs.Verdicts.{contracts_of, design_intent};
ghost use Rattle.verdicts.specs.Criteria.{Judges, JudgedBy};
ghost use Rattle.transient.specs.Sought.{AllBelow, SplitAt};

use crate::accepted::AcceptedTrace;
use verdicts::criterion::Criterion;

// The component that was sought last, how many contracts have components below it, and what its pulses are judged by.
#[derive(Clone, Copy)]
pub(crate) struct SoughtCriterion<'t, 'a> {
    pub trace: &'t AcceptedTrace<'a>,
    pub component: u64,
    pub below: usize,
    pub criterion: Criterion,
    ghost split: { SplitAt trace.now.aligned.lent.contracts.components.now component below },
    ghost judges: { Judges criterion (design_intent (contracts_of (contracts_lent trace.now.aligned.lent.contracts)) component) trace.now.unit },
}

impl<'t, 'a> SoughtCriterion<'t, 'a> {
    // A component is sought from a contract on, where those before it have components below.
    #[inline(always)]
    pub(crate) fn seek(
        trace: &'t AcceptedTrace<'a>,
        from: usize,
        component: u64,
    ) -> SoughtCriterion<'t, 'a>
        requires { AllBelow trace.now.aligned.lent.contracts.components.now component from }
        ensures trace { result.trace.now ≡ trace.now }
        ensures component { result.component ≡ component }
    {
        let below = trace.contracts_below(from, component);
        let intent = trace.design_intent(below, component);
        SoughtCriterion {
            trace,
            component,
            below,
            criterion: Criterion::of(intent, trace.unit),
        }
    }

    // From which contract on the next component is sought: those passed have components below it too, if it is above the last.
    // Any such place is right, 0 too: what is found is the same, and only the time differs.
    fn passed(&self, component: u64) -> usize
        ensures { AllBelow self.now.trace.now.aligned.lent.contracts.components.now component result }
    {
        if self.component < component {
            self.below
        } else {
            0
        }
    }

    // Turns to another component. Where components rise, each contract is passed once. Not inlined: the loop that judges would
    // clear the place of the new value for each pulse.
    #[inline(never)]
    fn turn_to(&mut self, component: u64)
        ensures trace { self.new.trace.now ≡ self.old.trace.now }
        ensures component { self.new.component ≡ component }
    {
        *self = SoughtCriterion::seek(self.trace, self.passed(component), component);
    }

    // Stays with the component that was sought last, or turns to another.
    fn attend(&mut self, component: u64)
        ensures trace { self.new.trace.now ≡ self.old.trace.now }
        ensures component { self.new.component ≡ component }
    {
        if component != self.component {
            self.turn_to(component);
        }
    }

    // What is judged of a pulse of this component, polarity, by its number, and width: the numbers of verdict and rationale.
    pub(crate) fn judge(&mut self, component: u64, polarity: u8, width: u64) -> (u8, u8)
        ensures trace { self.new.trace.now ≡ self.old.trace.now }
        ensures judged { JudgedBy (design_intent (contracts_of (contracts_lent self.old.trace.now.aligned.lent.contracts)) component) self.old.trace.now.unit polarity width result.0 result.1 }
    {
        self.attend(component);
        self.criterion.classify(polarity, width)
    }
}
