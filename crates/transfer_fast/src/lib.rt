// How far a transfer comes in one loop from its point: a
// burst, if one begins there, and polls that find nothing.
#![tactic(auto)]

ghost use Rattle.std.specs.Prelude.{Option};
ghost use Rattle.transfer_fast.specs.Inner.GoesAhead.{GoesAhead};

use regs::access::Recording;
use transfer::{FillPoint, Point, ReadPoint, RoundPoint, Transfer, WritePoint};
use transfer_fast_blocking::{read_blocking, write_blocking};

// `t`, `bytes`, `recording` and `buffer` stay apart: the transfer goes by value from step to step, and
// the three others are lent to the run by its caller.
// A burst of whole bytes or rounds, if one begins here, and where it leads: to a point, or to the
// next operation.
fn burst_from(
    t: Transfer,
    bytes: &[u8],
    recording: &mut Recording,
    buffer: &mut [u8],
) -> Option<Point>
    ensures { GoesAhead t bytes.now recording.old buffer.old recording.new buffer.new result }
{
    match t.point {
        Point::ReadBlocking(ReadPoint::Room(i)) => {
            let next = read_blocking::burst(t, i, recording, buffer);
            Some(Point::ReadBlocking(ReadPoint::Room(next)))
        }
        Point::WriteBlocking(WritePoint::Send(i)) => {
            let next = write_blocking::burst(t, i, bytes, recording);
            Some(Point::WriteBlocking(WritePoint::Send(next)))
        }
        Point::ReadAsync(RoundPoint::Capacity(round)) => {
            let next = transfer_fast_read_async::burst(t, round, recording, buffer);
            Some(Point::ReadAsync(RoundPoint::Capacity(next)))
        }
        Point::WriteAsync(FillPoint::Free(i)) => {
            transfer_fast_write_async::burst(t, i, bytes, recording)
        }
        p => Some(p),
    }
}

// The burst that begins here, if one does, and then polls that find nothing. Where the burst
// ended the operation, the next point depends on the next operation, and no poll is tried.
pub fn ahead_from(
    t: Transfer,
    bytes: &[u8],
    recording: &mut Recording,
    buffer: &mut [u8],
) -> Option<Point>
    ensures { GoesAhead t bytes.now recording.old buffer.old recording.new buffer.new result }
{
    let reached = burst_from(t, bytes, recording, buffer);
    if let Some(p) = reached {
        transfer_fast_polls::polls(p, recording);
    }
    reached
}
