// Recorded pulses and what is judged of them.
#![tactic(auto)]

pub mod trace; // trace.rt: the call that judges a trace
pub mod aligned; // aligned.rt: a trace whose lists are as long as one another
mod rows; // rows.rt: the tests of events and contracts, one by one
mod accepted; // accepted.rt: a trace that the tests accepted
mod sought; // sought.rt: the criteria of one component after the other
mod check; // check.rt: the tests of a trace
mod pulses; // pulses.rt: the pulses of a row of events
mod findings; // findings.rt: the entries of list 9
