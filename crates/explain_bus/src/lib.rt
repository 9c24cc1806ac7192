// The bus line of a transfer: the text of the sequence that a log makes of the bus.
#![tactic(auto)]

pub mod kept; // the log of a transfer, from its frames
pub mod line; // the text
pub mod sequence; // the sequence
