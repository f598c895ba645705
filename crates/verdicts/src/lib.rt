// One pulse, one contract, and the verdict of the one by the other.
#![tactic(auto)]

pub mod pulse; // pulse.rt: whether three events make a pulse, and of which polarity and width
pub mod contract; // contract.rt: the range of a contract's values, and its intent
pub mod criterion; // criterion.rt: the verdict on the pulses of one component
