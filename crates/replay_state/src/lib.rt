// The replay's reader: where it is, and what a byte does to that.
#![tactic(auto)]

pub mod ends; // the beginning and the end of an input
pub mod turns; // a byte, or the end of a line

ghost use Rattle.std.specs.Prelude.{◌≡◌};
ghost use Rattle.replay_session.specs.Session.{fresh};

use replay_calls::Workspace;
use replay_session::{Lists, Session};
use slave::SlaveState;

// Where the reader is: past a malformed line; in a line of which n bytes are kept; or
// in a line of bytes that is longer than what is kept, with a digit waiting or not.
#[derive(Clone, Copy)]
pub enum Part {
    Stopped,
    Text(usize),
    Long(bool),
}

// So many bytes of a line are kept.
pub const LONGEST_KEPT: usize = 8198;

#[derive(Clone, Copy)]
pub struct State {
    pub line: u32,
    pub part: Part,
    pub session: Session,
}

// The reader with all that it is lent: the bytes kept of a line, the slices of the open call, and
// the space in which a call is run and answered.
#[derive(Drop)]
pub struct Reader<'a> {
    pub state: State,
    pub text: &'a mut [u8; LONGEST_KEPT],
    pub lists: Lists<'a>,
    pub work: Workspace<'a>,
}

// The slave before any call.
pub fn fresh_slave() -> SlaveState
    ensures { result ≡ fresh }
{
    SlaveState {
        pending_byte: None,
        address: 0,
        general_call: false,
    }
}
