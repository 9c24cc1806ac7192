// A response: a poll finds no abort, a chunk of bytes is sent, and INTR_MASK is set for the next poll.
ghost use Rattle.std.specs.Prelude.{ℕ, ◌≡◌, ◌+◌, ◌-◌, ◌*◌, ◌<◌, ◌≤◌, length, IfSome};
ghost use Rattle.regs.specs.Inner.Recording.{room_of};
ghost use Rattle.slave_respond.specs.declared.RespondPoint.TheVariants.{RawIntrStat, ClrRdReq, IntrMask};
ghost use Rattle.slave_fast_bytes.specs.Inner.Bursts.{ForAny, Responds, StraightChunk};

use regs::access::Recording;
use regs::fields::has_tx_abrt;
use regs_runs::has;
use slave_respond::chunk_end;

// The bytes of a chunk. `bytes`, `recording` and the indices `from`, `i` and `count` stay apart: two things
// that are lent for different times, and places in a response that change from chunk to chunk.
fn send(from: u16, end: u16, bytes: &[u8], recording: &mut Recording)
    requires some { from < end }
    requires held { end ≤ length bytes.now }
    requires readings { recording.old.used + (end - from) ≤ length recording.old.readings.now }
    requires room { recording.old.entries + (end - from) * 2 ≤ room_of recording.old }
    ensures sent { ForAny
        (λ (count : ℕ). Responds count bytes.now (ClrRdReq from end) recording.old
        (IntrMask end) recording.new) }
    ensures entries { recording.new.entries ≡ recording.old.entries + (end - from) * 2 }
{
    for i in from..end {
        let v = recording.readings[recording.used];
        recording.put_read(regs::CLR_RD_REQ, v);
        recording.put_write(regs::DATA_CMD, u32::from(bytes[usize::from(i)]));
        recording.used += 1;
    }
}

// Where the chunk at byte i ends, if it leads straight on.
fn planned(i: u16, count: u16, recording: &Recording) -> Option<u16>
    ensures { IfSome result (λ end. StraightChunk recording.now i count end) }
{
    if i >= count {
        return None;
    }
    let end = chunk_end(i, count);
    let n = usize::from(end - i);
    if !has(recording, n + 1, n * 2 + 3) {
        return None;
    }
    if has_tx_abrt(recording.readings[recording.used]) {
        return None;
    }
    Some(end)
}

// Chunk after chunk, where the bytes are within the buffer; the byte that is next then. It stays a `while
// let` that sets i: whether a next chunk leads straight on is known only behind the one before it.
pub fn burst(from: u16, count: u16, bytes: &[u8], recording: &mut Recording) -> u16
    ensures { Responds count bytes.now (RawIntrStat from) recording.old (RawIntrStat result) recording.new }
{
    let mut i = from;
    if usize::from(count) <= bytes.len() {
        while let Some(end) = planned(i, count, recording) {
            let stat = recording.readings[recording.used];
            recording.put_read(regs::RAW_INTR_STAT, stat);
            recording.used += 1;
            send(i, end, bytes, recording);
            recording.put_write(regs::INTR_MASK, slave_respond::MASK);
            recording.put_mark(regs::PENDING);
            i = end;
        }
    }
    i
}
