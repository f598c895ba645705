// The scene: its checks, its positions and what is said of it.
#![tactic(auto)]

pub mod lent; // lent.rt: the lists that a caller lends for positions
pub mod place; // place.rt: room for the positions of a scene, and the scene placed in it
pub mod check; // check.rt: the checks of a scene
pub mod feedback; // feedback.rt: the call that writes list 4 alone
pub mod positions; // positions.rt: the positions of an accepted scene, for calls over them
mod sizes; // sizes.rt: the tests of lengths, 8, 1, 2 and 7
mod components; // components.rt: the tests of components, 4 and 3
mod lookup; // lookup.rt: the position of an id
mod connections; // connections.rt: the tests of connections, 5 and 6, and the edges over positions
mod index; // index.rt: the rows of a scene tested and indexed
