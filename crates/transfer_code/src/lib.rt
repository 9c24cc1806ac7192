// The packet error code of a transfer after its run: computed over
// the lent buffers, and put into the log or tested.
#![tactic(auto)]

pub mod address; // the address byte before an operation
pub mod code; // the code, operation by operation
pub mod settle; // the run's log and reply by it
