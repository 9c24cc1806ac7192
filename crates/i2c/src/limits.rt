// Number 20: what is over the limits is turned down before all else.
ghost use Rattle.std.specs.Prelude.{◌≡◌, ◌&&◌, ◌+◌, ◌<◌, ◌^◌, ◌≤◌, length};
ghost use Rattle.master.specs.Operations.{fits, lists};
ghost use Rattle.i2c.specs.Inner.Limits.{sums_with, sums_of, refused_over};

use regs::access::Ran;
use regs::answers::{Answer, Refusal, Reply};
use transfer::operations::Operations;

pub const MOST_BYTES: usize = 4096;

pub const MOST_OPERATIONS: usize = 64;

// The lengths of the writes and of the reads, added.
#[derive(Clone, Copy, PartialEq, Eq)]
pub struct Sums {
    pub written: usize,
    pub room: usize,
}

impl Sums {
    // With one operation more, if its kind is a write or a read. The kind stays a number here: it is
    // as callers in C list it, and this is the place that turns down every number but 0 and 1.
    #[tactic(auto, unfolding(crate::specs::Inner::Limits::sums_with))]
    fn with(self, kind: u8, n: usize) -> Option<Sums>
        requires { (self.written + n < 2 ^ 64) × (self.room + n < 2 ^ 64) }
        ensures { result ≡ sums_with self kind n }
    {
        match kind {
            1 => Some(Sums {
                written: self.written + n,
                ..self
            }),
            0 => Some(Sums {
                room: self.room + n,
                ..self
            }),
            _ => None,
        }
    }
}

pub fn refuse() -> Ran
    ensures { result ≡ refused_over }
{
    Ran {
        reply: Reply::Answered(Answer::Refused(Refusal::OverLimits)),
        entries: 0,
        used: 0,
    }
}

pub fn is_fitting(n: usize) -> bool
    ensures { result ≡ fits n }
{
    n <= MOST_BYTES
}

pub fn are_fitting(m: usize, n: usize) -> bool
    ensures { result ≡ (fits m && fits n) }
{
    is_fitting(m) & is_fitting(n)
}

// Adds the lengths of each kind; none where a kind is neither.
fn add_all(operations: &Operations) -> Option<Sums>
    requires { (length operations.now.kinds.now ≡ length operations.now.lengths.now)
        × (length operations.now.kinds.now ≤ 64) }
    ensures { result ≡ sums_of record { written = 0; room = 0 } operations.now.kinds.now
        operations.now.lengths.now }
{
    let mut sums = Sums {
        written: 0,
        room: 0,
    };
    let Operations { kinds, lengths } = *operations;
    for (kind, n) in kinds.iter().zip(lengths) {
        sums = sums.with(*kind, usize::from(*n))?;
    }
    Some(sums)
}

// Whether these are operations within the limits that add up to the lent buffers.
pub fn is_listed(operations: &Operations, written: usize, room: usize) -> bool
    ensures { result ≡ lists operations.now.kinds.now operations.now.lengths.now written room }
{
    let kinds = operations.kinds.len();
    if kinds == operations.lengths.len() && kinds <= MOST_OPERATIONS {
        (add_all(operations) == Some(Sums { written, room })) & are_fitting(written, room)
    } else {
        false
    }
}
