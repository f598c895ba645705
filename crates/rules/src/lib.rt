// The plain types of the timing overlay. What every call promises is written in specs/; specs/Lib.antt lists its
// files in reading order.
#![tactic(auto)]

pub mod delay; // delay.rt: DelayRange with its zero and its addition
pub mod kinds; // kinds.rt: what a row of the kind table says
pub mod limits; // limits.rt: the sizes that scenes, traces and records may have
pub mod lent; // lent.rt: the lists that calls are lent
pub mod answers; // answers.rt: what the checks and the scene calls answer
pub mod transient; // transient.rt: pulses, intents and verdicts
