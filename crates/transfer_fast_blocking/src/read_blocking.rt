// `read_blocking_internal`: TXFLR has room, the byte is asked for, RXFLR has it, and it is taken.
ghost use Rattle.std.specs.Prelude.{List, true, false, ◌≡◌, ℕ, ◌+◌, ◌<◌, ◌≤◌, length};
ghost use Rattle.regs.specs.Inner.Recording.{room_of};
ghost use Rattle.transfer.specs.declared.Point.TheVariants.{ReadBlocking};
ghost use Rattle.transfer.specs.declared.ReadPoint.TheVariants.{Room};
ghost use Rattle.transfer_fast_blocking.specs.Inner.Bursts.{Bursts, ForAny, SameRead, straight_read};

use super::{ahead, are_within, left, room};
use regs::access::Recording;
use regs::fields::{byte_of, level_of, word_of};
use transfer::Transfer;

fn is_straight(room: u32, filled: u32) -> bool
    ensures { result ≡ straight_read room filled }
{
    (level_of(room) < 16) & !(level_of(filled) == 0)
}

// Byte i, where the readings lead straight on; it is not the last one. Its place, readings and room are
// asked for once, before the loop.
fn byte(t: Transfer, i: u16, recording: &mut Recording, buffer: &mut [u8]) -> bool
    requires { (i + 1 < t.operation.len)
        × (t.operation.at + i < length buffer.old)
        × (recording.old.used + 3 ≤ length recording.old.readings.now)
        × (recording.old.entries + 4 ≤ room_of recording.old) }
    ensures taken { result ≡ true
        → ForAny
        (λ (bytes : List ℕ). Bursts (SameRead t) bytes recording.old buffer.old (ReadBlocking (Room i))
        recording.new buffer.new (ReadBlocking (Room (i + 1)))) }
    ensures counted { result ≡ true
        → (recording.new.used ≡ recording.old.used + 3)
        × (recording.new.entries ≡ recording.old.entries + 4) }
    ensures left { result ≡ false
        → ForAny
        (λ (bytes : List ℕ). Bursts (SameRead t) bytes recording.old buffer.old (ReadBlocking (Room i))
        recording.new buffer.new (ReadBlocking (Room i))) }
{
    let room = recording.readings[recording.used];
    let filled = recording.readings[recording.used + 1];
    if is_straight(room, filled) {
        let v = recording.readings[recording.used + 2];
        let w = word_of(0, true, false, t.operation.restart & (i == 0));
        recording.put_read(regs::TXFLR, room);
        recording.put_write(regs::DATA_CMD, w);
        recording.put_read(regs::RXFLR, filled);
        recording.put_read(regs::DATA_CMD, v);
        recording.used += 3;
        buffer[t.operation.at + usize::from(i)] = byte_of(v);
        return true;
    }
    false
}

// Byte after byte from one on, up to the one that is next; the last one is the machine's.
// This stays beside the burst of `write_blocking` and those of the async operations: they share four lines,
// and a closure for the byte would have to promise all that `byte` does, over the lent buffer.
// `t`, `from`, `i` and `recording` stay apart: a transfer and an index by value, and what is lent.
pub fn burst(t: Transfer, from: u16, recording: &mut Recording, buffer: &mut [u8]) -> u16
    ensures { ForAny
        (λ (bytes : List ℕ). Bursts (SameRead t) bytes recording.old buffer.old (ReadBlocking (Room from))
        recording.new buffer.new (ReadBlocking (Room result))) }
{
    let last = t.operation.len.saturating_sub(1);
    if last <= from || !are_within(t, buffer.len()) {
        return from;
    }
    let end = ahead(from, last, room(recording) / 4, left(recording) / 3);
    for i in from..end {
        if !byte(t, i, recording, buffer) {
            return i;
        }
    }
    end
}
