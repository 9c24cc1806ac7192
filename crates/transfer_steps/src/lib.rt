// A transfer from its first access to its end, one access a step: `start`,
// then `advance` until `next_access` of `transfer_access` tells the answer.
#![tactic(auto)]

ghost use Rattle.std.specs.Prelude.{◌≡◌};
ghost use Rattle.transfer.specs.Inner.Machine.{write_point, read_point, opened};
ghost use Rattle.transfer.specs.Inner.Machine.{length_for, begun};
ghost use Rattle.transfer.specs.Inner.Machine.{moved_to, advance_of, tested_point, first_point, started};
ghost use Rattle.transfer.specs.Inner.Operations.{number};

use regs::answers::{Answer, Refusal};
use transfer::counts::sum;
use transfer::operations::{Direction, Operations, Plan};
use transfer::{
    FillPoint, Mode, Operation, Point, ReadPoint, Round, RoundPoint, SetupPoint, Step, Transfer,
    WritePoint,
};
use transfer_after::step_of;

// Where a packet error code goes with the transfer, an empty write is refused in both modes.
#[tactic(auto, unfolding(transfer::specs::Inner::Machine::write_point))]
fn first_of_write(mode: Mode, plan: &Plan, len: u16) -> Point
    ensures { result ≡ write_point plan.now.coded mode len }
{
    let refused = Point::Finished(Answer::Refused(Refusal::InvalidWriteBufferLength));
    match mode {
        Mode::Blocking if len == 0 => refused,
        Mode::Async if plan.coded && len == 0 => refused,
        Mode::Blocking => Point::WriteBlocking(WritePoint::Send(0)),
        Mode::Async => Point::WriteAsync(FillPoint::Free(0)),
    }
}

#[tactic(auto, unfolding(transfer::specs::Inner::Machine::read_point, transfer::specs::Inner::Machine::some_read))]
fn first_of_read(mode: Mode, len: u16) -> Point
    ensures { result ≡ read_point mode len }
{
    if len == 0 {
        return Point::Finished(Answer::Refused(Refusal::InvalidReadBufferLength));
    }
    match mode {
        Mode::Blocking => Point::ReadBlocking(ReadPoint::Room(0)),
        Mode::Async => Point::ReadAsync(RoundPoint::Capacity(Round {
            remaining: len,
            queue: len,
            batch: 0,
        })),
    }
}

// The n-th operation, in this direction and of this length.
#[tactic(auto, unfolding(transfer::specs::Inner::Machine::opened, transfer::specs::Inner::Machine::opened_write, transfer::specs::Inner::Machine::opened_read))]
fn open(t: Transfer, plan: &Plan, n: usize, direction: Direction, len: u16, last: bool) -> Transfer
    ensures { result ≡ opened plan.now.coded t n (number direction) len last }
{
    let at = match direction {
        Direction::Write => t.writes,
        Direction::Read => t.reads,
    };
    let opened = Transfer {
        operation: Operation {
            at,
            len,
            send_stop: last,
            ..t.operation
        },
        begun: n,
        ..t
    };
    let end = sum(at, len);
    match direction {
        Direction::Write => Transfer {
            point: first_of_write(t.mode, plan, len),
            writes: end,
            ..opened
        },
        Direction::Read => Transfer {
            point: first_of_read(t.mode, len),
            reads: end,
            ..opened
        },
    }
}

// The last operation has a byte more, the place of the packet error code. Without data it has none and is
// refused when it is reached; 65,535 stays, since a length has 16 bits (the limits keep it far below).
#[tactic(auto, unfolding(transfer::specs::Inner::Machine::length_for, transfer::specs::Inner::Machine::longer_length))]
fn length_for_code(plan: &Plan, last: bool, len: u16) -> u16
    ensures { result ≡ length_for plan.now.coded last len }
{
    if plan.coded & last && len != 0 {
        len.saturating_add(1)
    } else {
        len
    }
}

// The next operation, or the end.
#[tactic(auto, unfolding(transfer::specs::Inner::Machine::begun, transfer::specs::Inner::Operations::listed_at))]
fn begin(t: Transfer, plan: &Plan) -> Transfer
    ensures { result ≡ begun plan.now.coded plan.now.operations.kinds.now plan.now.operations.lengths.now t }
{
    let k = t.begun;
    let all = plan.operations.len();
    match plan.operations.get(k) {
        Some((direction, len)) => {
            let n = k + 1;
            let last = n == all;
            open(
                t,
                plan,
                n,
                direction,
                length_for_code(plan, last, len),
                last,
            )
        }
        None => t.at_point(Point::Finished(Answer::Accepted)),
    }
}

// The point, or the next operation.
pub fn moved(t: Transfer, s: Step, plan: &Plan) -> Transfer
    ensures { result ≡ moved_to plan.now.coded plan.now.operations.kinds.now
        plan.now.operations.lengths.now t s }
{
    match s {
        Ok(Some(p)) => t.at_point(p),
        Ok(None) => begin(t, plan),
        Err(r) => t.at_point(Point::Finished(Answer::Refused(r))),
    }
}

// What the Rust does from an access, which read v, up to the next one.
pub fn advance(t: Transfer, v: u32, plan: &Plan) -> Transfer
    ensures { result ≡ advance_of plan.now.coded plan.now.operations.kinds.now
        plan.now.operations.lengths.now t v }
{
    let step = step_of(t.operation, t.point, v);
    moved(t, step, plan)
}

// The address is tested, then the block is disabled.
#[tactic(auto, unfolding(transfer::specs::Inner::Machine::tested_point))]
fn tested(address: u16) -> Point
    ensures { result ≡ tested_point address }
{
    if address < 0x80 {
        Point::Setup(SetupPoint::Disable)
    } else {
        Point::Finished(Answer::Refused(Refusal::AddressOutOfRange(address)))
    }
}

// The first access, or the refusal of the address. An async
// transfer of no operations makes no access at any address.
#[tactic(auto, unfolding(transfer::specs::Inner::Machine::first_point))]
fn first_of(mode: Mode, address: u16, none: bool) -> Point
    ensures { result ≡ first_point mode address none }
{
    match mode {
        Mode::Async if none => Point::Finished(Answer::Accepted),
        Mode::Blocking | Mode::Async => tested(address),
    }
}

// A transfer before its first access, of operations within the
// limits. `restart`: a read's first word carries the RESTART flag.
pub fn start(mode: Mode, restart: bool, address: u16, operations: &Operations) -> Transfer
    ensures { result ≡ started mode restart address operations.now.kinds.now }
{
    let operation = Operation {
        at: 0,
        len: 0,
        restart,
        send_stop: false,
    };
    Transfer {
        point: first_of(mode, address, operations.len() == 0),
        mode,
        address,
        operation,
        begun: 0,
        reads: 0,
        writes: 0,
    }
}
