// The call that writes lists 3 to 8: reasons, Feedback ids, marks, projected edges, paths and labels.
#![tactic(auto)]

pub mod assess; // assess.rt: the call
mod nodes; // nodes.rt: what the projection has to know of each component
mod project; // project.rt: lists 5, 6 and 7
