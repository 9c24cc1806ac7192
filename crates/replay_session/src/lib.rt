// Frames in order: the call that is open, and what each frame does to it.
#![tactic(auto)]

pub mod bytes; // a line that ends in bytes
pub mod store; // how far the lent slices are filled
pub mod enter; // what each frame does

ghost use Rattle.std.specs.Prelude.{◌≡◌};
ghost use Rattle.replay_session.specs.Session.{wants_by, wants_of, read_taken, write_taken, complete};
ghost use Rattle.replay_session.specs.Inner.Enter.{counts_of};

use replay_calls::Call;
use replay_calls::form::Kind;
use slave::SlaveState;

// The operations that a call still wants.
#[derive(Clone, Copy)]
pub enum Wants {
    Nothing,
    Read,
    Write,
    Both,
    Any,
}

// How much of the lent slices the operations of the open call have filled, and how many bytes they
// read. The counts stay beside `Lists`: the slices are lent for the whole input, while the counts begin
// anew with each call.
#[derive(Clone, Copy)]
pub struct Filled {
    pub ops: usize,
    pub bytes: usize,
    pub reads: usize,
}

// The same, if the operations are within the limits, and how many readings the call has. It stays a
// count, as those.
#[derive(Clone, Copy)]
pub struct Counts {
    pub filled: Option<Filled>,
    pub readings: usize,
}

// The slices that are lent for the operations and the readings of the open call.
#[derive(Drop)]
pub struct Lists<'a> {
    pub kinds: &'a mut [u8],
    pub lengths: &'a mut [u16],
    pub bytes: &'a mut [u8],
    pub readings: &'a mut [u32],
}

// A call that is open.
#[derive(Clone, Copy)]
pub struct Open {
    pub call: Call,
    pub wants: Wants,
    pub counts: Counts,
}

// Between two frames: the open call, if one is, and the slave's state.
#[derive(Clone, Copy)]
pub struct Session {
    pub call: Option<Open>,
    pub slave: SlaveState,
}

// A frame that is malformed, or comes out of order.
#[derive(Clone, Copy)]
pub struct Malformed;

impl From<Kind> for Wants {
    ghost from_gives = { λ kind wants. wants ≡ wants_by kind };

    fn from(kind: Kind) -> Wants {
        match kind {
            Kind::Read => Wants::Read,
            Kind::Write => Wants::Write,
            Kind::WriteRead => Wants::Both,
            Kind::Transaction => Wants::Any,
        }
    }
}

// Only a transfer wants operations: the bytes of a response come with its call.
impl From<Call> for Wants {
    ghost from_gives = { λ call wants. wants ≡ wants_of call };

    fn from(call: Call) -> Wants {
        match call {
            Call::Master(form, _) => Wants::from(form.kind),
            _ => Wants::Nothing,
        }
    }
}

impl Wants {
    // What is wanted after a read, if one may come now.
    fn after_read(self) -> Option<Wants>
        ensures { result ≡ read_taken self }
    {
        match self {
            Wants::Read => Some(Wants::Nothing),
            Wants::Any => Some(self),
            Wants::Nothing | Wants::Write | Wants::Both => None,
        }
    }

    // What is wanted after a write, if one may come now.
    fn after_write(self) -> Option<Wants>
        ensures { result ≡ write_taken self }
    {
        match self {
            Wants::Write => Some(Wants::Nothing),
            Wants::Both => Some(Wants::Read),
            Wants::Any => Some(self),
            Wants::Nothing | Wants::Read => None,
        }
    }

    pub fn is_complete(self) -> bool
        ensures { result ≡ complete self }
    {
        matches!(self, Wants::Nothing | Wants::Any)
    }
}

// With no call open nothing is filled.
pub fn counts_of(call: Option<Open>) -> Counts
    ensures { result ≡ counts_of call }
{
    match call {
        Some(o) => o.counts,
        None => Counts::none(),
    }
}
