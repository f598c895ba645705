// The call that writes lists 0, 1 and 2: timed edges, devices and evidence.
#![tactic(auto)]

mod edges; // edges.rt: list 0, from the edges over positions
mod devices; // devices.rt: list 1
mod evidence; // evidence.rt: list 2
pub mod describe; // describe.rt: the call
