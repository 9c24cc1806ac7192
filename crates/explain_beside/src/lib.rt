// What each word put on the bus, beside the word: what stands
// before a frame of a call, and the text of a frame after that.
#![tactic(auto)]

pub mod transfer; // what stands before a frame
pub mod beside; // the text
