// The burst that begins at the slave's point, if one does.
#![tactic(auto)]

ghost use Rattle.std.specs.Prelude.{List, ◌≡◌, ℕ};
ghost use Rattle.slave_fast.specs.Inner.GoesAhead.{GoesAhead};
ghost use Rattle.slave_respond.specs.Inner.Machine.{response};
ghost use Rattle.slave_fast_bytes.specs.Inner.Bursts.{ForAny};

use regs::access::Recording;
use slave_fast_bytes::listen::Message;
use slave_listen::ListenPoint;
use slave_respond::{Job, RespondPoint, Response};
use slave_steps::{Point, Slave};

// In `listen`, with no byte pending. `s`, `bytes`, `recording` and `buffer` stay apart: the slave goes by
// value from step to step, and the three others are lent to the run by its caller.
fn listen_from(
    s: Slave,
    point: ListenPoint,
    recording: &mut Recording,
    buffer: &mut [u8],
) -> ListenPoint
    requires at { s.point ≡ Point.Listening point }
    requires none { s.state.pending_byte ≡ None }
    ensures { ForAny
        (λ (bytes : List ℕ). GoesAhead bytes s recording.old buffer.old (Point.Listening result) recording.new
        buffer.new) }
{
    match point {
        ListenPoint::Status(stat, index) => {
            let mut message = Message {
                stat,
                index,
                places: s.length,
            };
            message.burst(recording, buffer);
            ListenPoint::Status(message.stat, message.index)
        }
        ListenPoint::RawIntrStat(index) if index < s.length => {
            slave_fast_polls::listen(recording);
            point
        }
        _ => point,
    }
}

// In a response, at a poll: from the byte that is next to the one that is next then. The index `at` stays
// beside `bytes`: it is a part of the point that the response is at.
fn respond_from(s: Slave, job: Job, at: u16, bytes: &[u8], recording: &mut Recording) -> u16
    requires at { s.point ≡ Point.Responding (response job (RespondPoint.RawIntrStat at)) }
    ensures { ForAny
        (λ (buffer : List ℕ). GoesAhead bytes.now s recording.old buffer
        (Point.Responding (response job (RespondPoint.RawIntrStat result))) recording.new buffer) }
{
    if at >= job.count(s.length) {
        slave_fast_polls::respond(recording);
        return at;
    }
    if job.sends_bytes() {
        return slave_fast_bytes::respond::burst(at, s.length, bytes, recording);
    }
    at
}

// The point that the slave comes to.
pub fn burst_from(s: Slave, bytes: &[u8], recording: &mut Recording, buffer: &mut [u8]) -> Point
    ensures { GoesAhead bytes.now s recording.old buffer.old result recording.new buffer.new }
{
    match s.point {
        Point::Listening(point) if s.state.pending_byte.is_none() => {
            Point::Listening(listen_from(s, point, recording, buffer))
        }
        Point::Responding(
            Response {
                job,
                point: RespondPoint::RawIntrStat(at),
            },
        ) => Point::Responding(Response {
            job,
            point: RespondPoint::RawIntrStat(respond_from(s, job, at, bytes, recording)),
        }),
        point => point,
    }
}
