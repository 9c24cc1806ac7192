// A bus sequence as a picture: SVG text into a lent buffer.
#![tactic(auto)]

pub mod head; // what is the same of every picture
pub mod place; // where signs stand
pub mod sign; // a sign at its place
