// Frames as text: numbers read from hexadecimal digits, and answers written in them.
#![tactic(auto)]

pub mod digits; // numbers in the lines of the input
pub mod hex; // the two digits of a byte
pub mod print; // an answer by a buffer and a place
pub mod text; // text into a lent buffer
