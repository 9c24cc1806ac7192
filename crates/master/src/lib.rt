// The master's definitions, and what is proved about them alone: specs/ and proofs/ hold all of it.
#![tactic(auto)]

// The size of the controller's FIFOs.
pub const FIFO_SIZE: u8 = 16;
