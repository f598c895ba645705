// From a scene's text to the text of its report.
#![tactic(auto)]

pub mod answer; // answer.rt: what is printed for a text
mod page; // page.rt: bytes, numbers and rows of ids, put on a page
mod reading; // reading.rt: a scene's rows read from its text
mod report; // report.rt: the report and the refusal
mod rows; // rows.rt: the rows of a scene, as they were read
