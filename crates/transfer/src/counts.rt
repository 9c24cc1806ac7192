// Counts of the FIFO's places and of bytes in a buffer, which more than one part of the machine takes.
ghost use Rattle.std.specs.Prelude.{◌≡◌};
ghost use Rattle.transfer.specs.Inner.Machine.{sum_of, capacity};

use master::FIFO_SIZE;
use regs::answers::Refusal;
use regs::fields::level_of;

// A place in a buffer. Within the limits the sum never wraps.
pub fn sum(a: usize, n: u16) -> usize
    ensures { result ≡ sum_of a n }
{
    a.wrapping_add(usize::from(n))
}

// The free places that TXFLR tells of the transmit FIFO. A level that it does not have is refused.
#[tactic(auto, unfolding(crate::specs::Inner::Machine::places))]
pub fn capacity_of(v: u32) -> Result<u16, Refusal>
    ensures { result ≡ capacity v }
{
    let level = level_of(v);
    let places = FIFO_SIZE.checked_sub(level);
    places
        .map(u16::from)
        .ok_or(Refusal::TxLevelOutOfRange(level))
}
