// Events as a lent list of records.
#![tactic(auto)]

pub mod records; // records.rt: the trace call on records
