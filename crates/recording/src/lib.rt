// A running record of judged traces.
#![tactic(auto)]

pub mod held; // held.rt: the record, its test and its growth
pub mod record; // record.rt: the call on a record
