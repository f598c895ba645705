//! The calls for C, in one archive. A list is a pointer and the number of its entries; a call with many lists is handed
//! the structs of lists of the crate `rules` by pointers. An answer is its numbers, since C has no `Result`: number and
//! place stand in each answer that may be a refusal, so that C reads them there by name. No list that is written may
//! overlap another, or one of the structs. A call keeps nothing after it returns, and changes no pointer and no length
//! of a struct that it is lent.
#![tactic(auto)]

pub mod checks; // checks.rt: the checks of a scene, and list 4 alone
pub mod analysis; // analysis.rt: lists 0 to 8
pub mod description; // description.rt: lists 0, 1 and 2
pub mod assessment; // assessment.rt: lists 3 to 8
pub mod path; // path.rt: the path of a projected edge
pub mod traces; // traces.rt: list 9, and recording
// The passes that have no limit of size, for those who hold them against others:
pub mod ordering; // ordering.rt: the order of keys, and the search in it
pub mod marking; // marking.rt: strongly connected components
pub mod reconvergent; // reconvergent.rt: path sums and unequal delays
