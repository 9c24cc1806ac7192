// Where a reading leads in the blocking reads and writes, which go byte by byte.
#![tactic(auto)]

ghost use Rattle.std.specs.Prelude.{◌≡◌, ◌+◌, ltb, if◌then◌else◌};
ghost use Rattle.transfer.specs.Inner.Machine.{closes, returned, level_step, step_read};
ghost use Rattle.transfer.specs.Inner.Machine.{step_write};

use regs::fields::{has_stop_det, has_tx_empty, level_of};
use transfer::counts::capacity_of;
use transfer::{AbortPoint, Caller, Operation, Point, ReadPoint, Step, StopPoint, WritePoint};

// STOP rides on byte i.
#[tactic(auto, unfolding(transfer::specs::Inner::Machine::closes))]
fn is_closing(operation: Operation, i: u16) -> bool
    ensures { result ≡ closes operation.len operation.send_stop i }
{
    operation.send_stop & (i == operation.len.saturating_sub(1))
}

// The byte after byte i, if there is one.
fn next_byte(len: u16, i: u16) -> Option<u16>
    ensures { result ≡ (if ltb (i + 1) len then Some (i + 1) else None) }
{
    let next = i.saturating_add(1);
    if next < len { Some(next) } else { None }
}

// A byte that was written without an abort. It stays apart from `byte_taken`: a write waits for STOP at its
// last byte, and a read does not.
#[tactic(auto, unfolding(transfer::specs::Inner::Machine::returned))]
pub fn byte_written(operation: Operation, i: u16) -> Option<Point>
    ensures { returned operation.len operation.send_stop (Caller.Write i) (Ok tt) ≡ Ok result }
{
    if is_closing(operation, i) {
        return Some(Point::WriteBlocking(WritePoint::StopDet(Ok(()))));
    }
    let next = next_byte(operation.len, i)?;
    Some(Point::WriteBlocking(WritePoint::Send(next)))
}

#[tactic(auto, unfolding(transfer::specs::Inner::Machine::step_read))]
fn byte_taken(len: u16, i: u16) -> Option<Point>
    ensures { step_read len (ReadPoint.Take i) 0 ≡ Ok result }
{
    let next = next_byte(len, i)?;
    Some(Point::ReadBlocking(ReadPoint::Room(next)))
}

// A read's look at the places stays apart from a write's (`after_full`), which leads to other points.
#[tactic(auto, unfolding(transfer::specs::Inner::Machine::step_read, transfer::specs::Inner::Machine::room_step))]
fn after_room(i: u16, v: u32) -> Step
    ensures { result ≡ step_read 0 (ReadPoint.Room i) v }
{
    let point = if capacity_of(v)? == 0 {
        ReadPoint::Room(i)
    } else {
        ReadPoint::Ask(i)
    };
    Ok(Some(Point::ReadBlocking(point)))
}

#[tactic(auto, unfolding(transfer::specs::Inner::Machine::level_step))]
fn after_level(i: u16, n: u8) -> Point
    ensures { level_step i n ≡ Ok (Some result) }
{
    if n == 0 {
        Point::Abort(AbortPoint::Source, Caller::Read(i))
    } else {
        Point::ReadBlocking(ReadPoint::Take(i))
    }
}

#[tactic(auto, unfolding(transfer::specs::Inner::Machine::step_read))]
pub fn after_read(len: u16, p: ReadPoint, v: u32) -> Step
    ensures { result ≡ step_read len p v }
{
    match p {
        ReadPoint::Room(i) => after_room(i, v),
        ReadPoint::Ask(i) => Ok(Some(Point::ReadBlocking(ReadPoint::Level(i)))),
        ReadPoint::Level(i) => Ok(Some(after_level(i, level_of(v)))),
        ReadPoint::Take(i) => Ok(byte_taken(len, i)),
    }
}

#[tactic(auto, unfolding(transfer::specs::Inner::Machine::step_write))]
pub fn after_write(p: WritePoint, v: u32) -> Point
    ensures { step_write p v ≡ Ok (Some result) }
{
    match p {
        WritePoint::Send(i) => Point::WriteBlocking(WritePoint::Empty(i)),
        WritePoint::Empty(i) => {
            if has_tx_empty(v) {
                Point::Abort(AbortPoint::Source, Caller::Write(i))
            } else {
                Point::WriteBlocking(p)
            }
        }
        WritePoint::StopDet(r) => {
            if has_stop_det(v) {
                Point::Stop(StopPoint::Clear(r))
            } else {
                Point::WriteBlocking(p)
            }
        }
    }
}
