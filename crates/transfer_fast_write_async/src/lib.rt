// Bursts of an async write (`write_async_internal`): the accesses of whole rounds in one loop, where
// the readings lead straight on. A round fills the places that TXFLR has free. The rounds end at
// the first place that has no byte; until then each is followed by a poll: TX_ABRT_SOURCE is clear
// and TXFLR has room again.
#![tactic(auto)]

ghost use Rattle.std.specs.Prelude.{
  true,
  false,
  Option,
  IfSome,
  ◌≡◌,
  ◌+◌,
  ◌-◌,
  ◌<◌,
  ◌≤◌,
  leb,
  length,
};
ghost use Rattle.regs.specs.Inner.Recording.{Enters, room_of};
ghost use Rattle.regs.specs.Registers.{DATA_CMD};
ghost use Rattle.transfer.specs.Inner.Machine.{byte_at, fill_word, go};
ghost use Rattle.transfer.specs.declared.Point.TheVariants.{WriteAsync};
ghost use Rattle.transfer.specs.declared.FillPoint.TheVariants.{Free};
ghost use Rattle.transfer_fast_write_async.specs.Inner.Fills.{Polls, StraightFill, Leads};

use regs::access::Recording;
use regs_runs::{has, read};
use transfer::{FillPoint, Point, Transfer};
use transfer_access::words::word_of_fill;
use transfer_after_waits::wait_for_stop;
use transfer_fast_blocking::{are_within, free};

// Whether a round that fills all its places is followed by another: the first
// poll finds no abort and room in the FIFO, and readings and log are long enough.
fn is_straight(space: u16, recording: &Recording) -> bool
    ensures { result ≡ true
        → Polls recording.now.readings.now (recording.now.used + 1)
        × (recording.now.entries + space + 3 ≤ room_of recording.now) }
{
    has(recording, 3, usize::from(space) + 3)
        && recording.readings[recording.used + 1] == 0
        && 0 < free(recording.readings[recording.used + 2])
}

// The places of a round that leads straight on, to the next round or to the end, if it does and
// readings and log are long enough for it. A round whose last place takes the last byte is not
// the last one: as in the Rust a poll follows, and the next round finds no byte.
fn planned(i: u16, len: u16, recording: &Recording) -> Option<u16>
    requires { i ≤ len }
    ensures { IfSome result (λ space. StraightFill recording.now i len space) }
{
    if !has(recording, 1, 1) {
        return None;
    }
    let space = free(recording.readings[recording.used]);
    let rest = len - i;
    let leads_on = if rest < space {
        has(recording, 1, usize::from(rest) + 1)
    } else {
        is_straight(space, recording)
    };
    (0 < space && leads_on).then_some(space)
}

// Whether the bytes end in a round. The loop over the places of another
// round is compiled without the tests for their end and for the last byte.
fn is_last(i: u16, len: u16, space: u16) -> bool
    requires { i ≤ len }
    ensures { result ≡ leb (len - i) space }
{
    len - i <= space
}

// The byte of a place. The last one of a coded transfer is past the
// lent slice, and 0 is sent for it; only a last round can come there.
fn byte_of(last: bool, bytes: &[u8], at: usize, i: u16) -> u8
    requires { (at + i ≤ length bytes.now)
        × (last ≡ false → at + i < length bytes.now) }
    ensures { result ≡ byte_at bytes.now at i }
{
    let place = at + usize::from(i);
    if last && place == bytes.len() {
        0
    } else {
        bytes[place]
    }
}

// Fills a place with byte i. Before the last round no byte is the last one, which STOP goes with.
fn fill(t: Transfer, last: bool, i: u16, bytes: &[u8], recording: &mut Recording)
    requires { (recording.old.entries < room_of recording.old)
        × (t.operation.at + i ≤ length bytes.now)
        × (last ≡ false → t.operation.at + i < length bytes.now)
        × (last ≡ false → i + 1 < t.operation.len) }
    ensures { Enters recording.old (0x200 + DATA_CMD)
        (fill_word (byte_at bytes.now t.operation.at i) i t.operation.len t.operation.send_stop)
        recording.new }
{
    let byte = byte_of(last, bytes, t.operation.at, i);
    let w = word_of_fill(byte, i, t.operation.len, t.operation.send_stop & last);
    recording.put_write(regs::DATA_CMD, w);
}

// Round after round, until the bytes end or a round does not lead straight on. A place
// without a byte leaves both loops: the operation waits for its STOP, or is done.
fn run(t: Transfer, from: u16, bytes: &[u8], recording: &mut Recording) -> Option<Point>
    requires { (from ≤ t.operation.len)
        × (t.operation.at + t.operation.len ≤ length bytes.now + 1) }
    ensures { Leads t bytes.now recording.old (go (WriteAsync (Free from))) recording.new (Ok result) }
{
    let len = t.operation.len;
    let mut i = from;
    // The labelled loop stays, with i beside it: as in the Rust, a place without a byte leaves both loops,
    // and how far a round takes i is known only when TXFLR is read.
    'xmit: loop {
        let Some(space) = planned(i, len, recording) else {
            return Some(Point::WriteAsync(FillPoint::Free(i)));
        };
        let _free = read(recording, regs::TXFLR);
        let last = is_last(i, len, space);
        for n in 0..space {
            if last && i + n == len {
                break 'xmit;
            }
            fill(t, last, i + n, bytes, recording);
        }
        let _source = read(recording, regs::TX_ABRT_SOURCE);
        let _again = read(recording, regs::TXFLR);
        i += space;
    }
    wait_for_stop(t.operation.send_stop, Ok(()))
}

// The rounds from a byte on, or from past the last one, and where they lead. That each byte has its place
// is asked once: but for the last one of a coded transfer, which is its code. `t`, `bytes` and `recording`
// stay apart: a transfer by value, and two things that are lent.
pub fn burst(t: Transfer, from: u16, bytes: &[u8], recording: &mut Recording) -> Option<Point>
    ensures { Leads t bytes.now recording.old (go (WriteAsync (Free from))) recording.new (Ok result) }
{
    if from <= t.operation.len && are_within(t, bytes.len()) {
        run(t, from, bytes, recording)
    } else {
        Some(Point::WriteAsync(FillPoint::Free(from)))
    }
}
