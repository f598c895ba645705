// The call that writes lists 0 to 8.
#![tactic(auto)]

pub mod analyze; // analyze.rt: the call
