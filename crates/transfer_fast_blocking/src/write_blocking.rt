// `write_blocking_internal`: the word is written, RAW_INTR_STAT says
// that it was sent, and TX_ABRT_SOURCE that nothing was aborted.
ghost use Rattle.std.specs.Prelude.{List, true, false, ◌≡◌, ℕ, ◌+◌, ◌<◌, ◌≤◌, length};
ghost use Rattle.regs.specs.Inner.Recording.{room_of};
ghost use Rattle.transfer.specs.declared.Point.TheVariants.{WriteBlocking};
ghost use Rattle.transfer.specs.declared.WritePoint.TheVariants.{Send};
ghost use Rattle.transfer_fast_blocking.specs.Inner.Bursts.{Bursts, ForAny, SameWrite, straight_write};

use super::{ahead, are_within, left, room};
use regs::access::Recording;
use regs::fields::{has_tx_empty, word_of};
use transfer::Transfer;

fn is_straight(stat: u32, source: u32) -> bool
    ensures { result ≡ straight_write stat source }
{
    has_tx_empty(stat) & (source == 0)
}

// Byte i, where the readings lead straight on; it is not the last one. Readings and room are
// asked for once, before the loop.
fn byte(t: Transfer, i: u16, bytes: &[u8], recording: &mut Recording) -> bool
    requires { (i + 1 < t.operation.len)
        × (t.operation.at + i < length bytes.now)
        × (recording.old.used + 2 ≤ length recording.old.readings.now)
        × (recording.old.entries + 3 ≤ room_of recording.old) }
    ensures sent { result ≡ true
        → ForAny
        (λ (buffer : List ℕ). Bursts (SameWrite t) bytes.now recording.old buffer (WriteBlocking (Send i))
        recording.new buffer (WriteBlocking (Send (i + 1)))) }
    ensures counted { result ≡ true
        → (recording.new.used ≡ recording.old.used + 2)
        × (recording.new.entries ≡ recording.old.entries + 3) }
    ensures left { result ≡ false
        → ForAny
        (λ (buffer : List ℕ). Bursts (SameWrite t) bytes.now recording.old buffer (WriteBlocking (Send i))
        recording.new buffer (WriteBlocking (Send i))) }
{
    let stat = recording.readings[recording.used];
    let source = recording.readings[recording.used + 1];
    if is_straight(stat, source) {
        let byte = bytes[t.operation.at + usize::from(i)];
        let w = word_of(byte, false, false, false);
        recording.put_write(regs::DATA_CMD, w);
        recording.put_read(regs::RAW_INTR_STAT, stat);
        recording.put_read(regs::TX_ABRT_SOURCE, source);
        recording.used += 2;
        return true;
    }
    false
}

// Byte after byte from one on, up to the one that is next; the last one is the machine's.
// This stays beside the burst of `read_blocking`, for the reason that is told there. `t`, `i`, `from`,
// `bytes` and `recording` stay apart too: the slice and the recording are lent for different times.
pub fn burst(t: Transfer, from: u16, bytes: &[u8], recording: &mut Recording) -> u16
    ensures { ForAny
        (λ (buffer : List ℕ). Bursts (SameWrite t) bytes.now recording.old buffer (WriteBlocking (Send from))
        recording.new buffer (WriteBlocking (Send result))) }
{
    let last = t.operation.len.saturating_sub(1);
    if last <= from || !are_within(t, bytes.len()) {
        return from;
    }
    let end = ahead(from, last, room(recording) / 3, left(recording) / 2);
    for i in from..end {
        if !byte(t, i, bytes, recording) {
            return i;
        }
    }
    end
}
