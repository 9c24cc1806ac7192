// The type of what the bus gets from a clock setting. The definitions of clock setup, and what is proved
// about them alone, are in specs/ and proofs/.
#![tactic(auto)]

// A rate in whole Hz, and what the division of the clock leaves.
#[derive(Clone, Copy)]
pub struct Rate {
    pub hz: u32,
    pub remainder: u32,
}
