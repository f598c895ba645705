// Reading a scene's text: numbers, fields, and the rows of components and connections.
#![tactic(auto)]

pub mod lines; // lines.rt: a text read line by line
pub mod numbers; // numbers.rt: the forms of values
pub mod rows; // rows.rt: the rows of a scene's text
