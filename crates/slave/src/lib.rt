// The slave's state. In specs/ src/i2c_slave.rs is written down over
// it, and in proofs/ is what holds of that text, whatever code does it.
#![tactic(auto)]

// What lasts from call to call: the byte that was received for the next message, if any, and the settings.
#[derive(Clone, Copy)]
pub struct SlaveState {
    pub pending_byte: Option<u8>,
    pub address: u16,
    pub general_call: bool,
}
