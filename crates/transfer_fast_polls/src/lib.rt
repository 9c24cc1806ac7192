// Polls of a transfer that find nothing, one after the other in one loop: the transfer stays at its point.
#![tactic(auto)]

pub mod flag; // RAW_INTR_STAT, for a flag
pub mod level; // RXFLR, for a byte
pub mod wait; // the async forms' waits

ghost use Rattle.std.specs.Prelude.{true, ◌≡◌};
ghost use Rattle.regs_runs.specs.Inner.Puts.{Grows};
ghost use Rattle.transfer_fast_polls.specs.Inner.Stays.{Stays};

use flag::Flag;
use regs::access::Recording;
use transfer::{AbortPoint, Caller, Point, ReadPoint, RoundPoint, WritePoint};

// One poll of an async form's wait, if the transfer waits so at a point, and whether it found nothing.
// What it did not make is left to the machine. Each asks for its readings and entries before it reads,
// so that no reading needs a test of its own, nor an entry that is made for nothing.
fn poll(p: Point, recording: &mut Recording) -> bool
    ensures stays { Stays p recording.old recording.new }
    ensures found_nothing { result ≡ true → Grows recording.old recording.new }
{
    match p {
        Point::ReadAsync(RoundPoint::Level(round)) => wait::batch(round.batch, recording),
        Point::Abort(AbortPoint::Source, Caller::Space(_)) => wait::space(recording),
        Point::Abort(AbortPoint::Source, Caller::Stop(Ok(()))) => wait::stop(recording),
        _ => false,
    }
}

// The waits of the async forms until one finds something. It stays a `while`: each poll looks at the
// recording as the one before it left it, so there is nothing to iterate over.
fn waits(p: Point, recording: &mut Recording)
    ensures { Stays p recording.old recording.new }
{
    while poll(p, recording) {}
}

// The polls at a point until one finds something. Those of the blocking forms are one and two entries
// long, and are counted beforehand; the waits ask each time.
pub fn polls(p: Point, recording: &mut Recording)
    ensures { Stays p recording.old recording.new }
{
    match p {
        Point::WriteBlocking(WritePoint::Empty(_)) => flag::polls(Flag::TxEmpty, recording),
        Point::WriteBlocking(WritePoint::StopDet(_)) => flag::polls(Flag::StopDet, recording),
        Point::ReadBlocking(ReadPoint::Level(_)) => level::polls(recording),
        p => waits(p, recording),
    }
}
