// Where a reading leads, from any point. An abort returns to its caller here.
#![tactic(auto)]

ghost use Rattle.std.specs.Prelude.{◌≡◌};
ghost use Rattle.master.specs.Driver.{reason_of};
ghost use Rattle.transfer.specs.Inner.Machine.{returned, step_setup, step_abort, step_of};

use regs::answers::{AbortReason, Refusal};
use regs::fields::{is_arbitration_loss, is_data_not_acknowledged, is_no_acknowledge};
use transfer::{
    AbortPoint, Caller, FillPoint, Operation, Point, ReadPoint, SetupPoint, Step, Tried, WritePoint,
};
use transfer_after_async::{after_fill, after_round, batch_read};
use transfer_after_blocking::{after_read, after_write, byte_written};
use transfer_after_waits::{after_stop, after_wait, stop_polled, wait_for_stop};

fn reason(w: u32) -> AbortReason
    ensures { result ≡ reason_of w }
{
    if is_no_acknowledge(w) {
        AbortReason::NoAcknowledge
    } else if is_data_not_acknowledged(w) {
        AbortReason::DataNotAcknowledged(w)
    } else if is_arbitration_loss(w) {
        AbortReason::ArbitrationLoss
    } else {
        AbortReason::Other(w)
    }
}

// `read_and_clear_abort_reason` returns to its caller.
#[tactic(auto, unfolding(transfer::specs::Inner::Machine::returned))]
fn return_to(operation: Operation, caller: Caller, abort: Tried) -> Step
    ensures { result ≡ returned operation.len operation.send_stop caller abort }
{
    match (caller, abort) {
        (Caller::Read(i), Ok(())) => Ok(Some(Point::ReadBlocking(ReadPoint::Level(i)))),
        (Caller::Read(_), Err(r)) => Err(Refusal::Abort(r)),
        (Caller::Write(i), Ok(())) => Ok(byte_written(operation, i)),
        (Caller::Write(_), Err(_)) => Ok(Some(Point::WriteBlocking(WritePoint::StopDet(abort)))),
        (Caller::Batch(round, rxfifo), Ok(())) => Ok(batch_read(
            operation.send_stop,
            round,
            rxfifo,
        )),
        (Caller::Space(i), Ok(())) => Ok(Some(Point::WriteAsync(FillPoint::Full(i)))),
        (Caller::Batch(..) | Caller::Space(_), Err(_)) => Ok(wait_for_stop(
            operation.send_stop,
            abort,
        )),
        (Caller::Stop(had), _) => Ok(Some(stop_polled(had, abort))),
    }
}

#[tactic(auto, unfolding(transfer::specs::Inner::Machine::step_setup))]
fn after_setup(p: SetupPoint) -> Option<Point>
    ensures { step_setup p ≡ Ok result }
{
    match p {
        SetupPoint::Disable => Some(Point::Setup(SetupPoint::Target)),
        SetupPoint::Target => Some(Point::Setup(SetupPoint::Enable)),
        SetupPoint::Enable => None,
    }
}

#[tactic(auto, unfolding(transfer::specs::Inner::Machine::step_abort))]
fn after_abort(operation: Operation, caller: Caller, p: AbortPoint, v: u32) -> Step
    ensures { result ≡ step_abort operation.len operation.send_stop caller p v }
{
    match p {
        AbortPoint::Source if v == 0 => return_to(operation, caller, Ok(())),
        AbortPoint::Source => Ok(Some(Point::Abort(AbortPoint::Clear(v), caller))),
        AbortPoint::Clear(w) => return_to(operation, caller, Err(reason(w))),
    }
}

// What the Rust does from an access, which read v, up to the next one.
#[tactic(auto, unfolding(transfer::specs::Inner::Machine::step_of))]
pub fn step_of(operation: Operation, p: Point, v: u32) -> Step
    ensures { result ≡ step_of operation.len operation.send_stop p v }
{
    match p {
        Point::Setup(s) => Ok(after_setup(s)),
        Point::Abort(a, caller) => after_abort(operation, caller, a, v),
        Point::ReadBlocking(b) => after_read(operation.len, b, v),
        Point::WriteBlocking(w) => Ok(Some(after_write(w, v))),
        Point::ReadAsync(q) => after_round(operation.send_stop, q, v),
        Point::WriteAsync(f) => after_fill(operation, f, v),
        Point::Wait(m) => Ok(Some(after_wait(m, v))),
        Point::Stop(s) => after_stop(s, v),
        Point::Finished(_) => Ok(Some(p)),
    }
}
