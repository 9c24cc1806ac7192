// The master's calls. They stand in modules: number 20's limits, the eight transfers in the Rust's names, and
// the same eight with a packet error code.
#![tactic(auto)]

mod forms; // the four forms of a transfer
mod limits; // number 20

pub use limits::is_listed;

pub mod calls; // the eight transfers
pub mod coded; // the eight with a packet error code
