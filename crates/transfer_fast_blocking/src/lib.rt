// Bursts of a transfer: the accesses of whole bytes in one loop, where the readings lead straight on.
// Each takes the place of the machine's steps between two points; what is off that way, and the end of
// an operation, is left to the machine. The rounds of the async operations are in
// `transfer_fast_read_async` and `transfer_fast_write_async`.
#![tactic(auto)]

pub mod read_blocking; // byte after byte
pub mod write_blocking; // byte after byte

ghost use Rattle.std.specs.Prelude.{true, ◌≡◌, ◌+◌, ◌-◌, ◌≤◌, length};
ghost use Rattle.regs.specs.Fields.{level};
ghost use Rattle.regs.specs.Inner.Recording.{room_of};

use counts::least;
use regs::access::Recording;
use regs::fields::level_of;
use transfer::Transfer;

// The places of the transmit FIFO that are free by TXFLR: a round of an async operation fills them.
pub fn free(v: u32) -> u16
    ensures { result ≡ 16 - level v }
{
    16u16.saturating_sub(u16::from(level_of(v)))
}

// Whether an operation's bytes have their places among those that are lent, but perhaps the last one: that
// of a coded transfer is its code, which is past them. A burst asks this once, before its loop.
pub fn are_within(t: Transfer, length: usize) -> bool
    ensures { result ≡ true → t.operation.at + t.operation.len ≤ length + 1 }
{
    length.checked_sub(t.operation.at).is_some_and(|left| usize::from(t.operation.len)
        <= left.saturating_add(1))
}

// How many readings are left.
pub fn left(recording: &Recording) -> usize
    ensures { result ≡ length recording.now.readings.now - recording.now.used }
{
    recording.readings.len().saturating_sub(recording.used)
}

// For how many entries more the log has room.
pub fn room(recording: &Recording) -> usize
    ensures { result ≡ room_of recording.now - recording.now.entries }
{
    (recording.log.len() / 2).saturating_sub(recording.entries)
}

// Up to which byte a burst may go: before the last one, and as far as there are entries and readings.
fn ahead(from: u16, last: u16, entries: usize, readings: usize) -> u16
    requires { from ≤ last }
    ensures { (from ≤ result)
        × (result ≤ last)
        × (result - from ≤ entries)
        × (result - from ≤ readings) }
{
    from + least(usize::from(last - from), least(entries, readings)) as u16
}
