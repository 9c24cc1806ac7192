// A log and the reply behind it as text.
#![tactic(auto)]

pub mod entries; // put into a text
