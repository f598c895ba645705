// The kind table, looked up by code, and polarities and units by their numbers. The types are those of the crate rules.
#![tactic(auto)]

pub mod kinds; // kinds.rt: the kind table
pub mod codes; // codes.rt: polarities and units by their numbers
