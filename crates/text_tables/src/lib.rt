// Rows of tables, flags, pairs of digits, and decimal numbers as text in a lent buffer.
#![tactic(auto)]

pub mod decimal; // decimal numbers
pub mod rows; // rows, flags and pairs
