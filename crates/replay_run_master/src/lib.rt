// The master's transfers, run and printed.
#![tactic(auto)]

ghost use Rattle.std.specs.Prelude.{◌≡◌, [], ◌&&◌, ◌≤◌, drop, length};
ghost use Rattle.regs.specs.Log.{Leaves, LeavesBuffer, expected};
ghost use Rattle.master.specs.Operations.{fits, lists};
ghost use Rattle.master.specs.Operations as Master;
ghost use Rattle.text_hex.specs.Added.{Room};
ghost use Rattle.replay_calls.specs.Calls.{within_form, lists_read};
ghost use Rattle.replay_calls.specs.Inner.Runs.{LOG_WORDS, MOST_TEXT};
ghost use Rattle.replay_calls.specs.Inner.Runs.{listed_of, SameSpace, Transferred};

use regs::access::Ran;
use replay_calls::form::{Form, Kind, Mode};
use replay_calls::outcome::{clear, push_outcome};
use replay_calls::{Operations, Workspace};

// Whether an operation is a read.
fn has_read(operations: Operations) -> bool
    ensures { result ≡ lists_read operations.entry.kinds.now }
{
    operations.kinds.contains(&0)
}

// `read`, `write` and `write_read` stay three: each picks the public call of its own kind, and those
// differ in what they are lent: a room, bytes, or both. `form`, `address`, `readings` and `log` stay
// parameters, as those calls take them.
fn read(form: Form, address: u16, room: &mut [u8], readings: &[u32], log: &mut [u32]) -> Ran
    ensures { LeavesBuffer
        (expected (within_form form address (fits (length room.old)) (Master.read (length room.old)))
        log.old readings.now room.old tt)
        log.old log.new room.new result }
{
    match (form.mode, form.coded) {
        (Mode::Blocking, false) => i2c::calls::blocking_read(address, room, readings, log),
        (Mode::Blocking, true) => i2c::coded::blocking_read_pec(address, room, readings, log),
        (Mode::Async, false) => i2c::calls::read_async(address, room, readings, log),
        (Mode::Async, true) => i2c::coded::read_async_pec(address, room, readings, log),
    }
}

fn write(form: Form, address: u16, bytes: &[u8], readings: &[u32], log: &mut [u32]) -> Ran
    ensures { Leaves
        (expected (within_form form address (fits (length bytes.now)) (Master.write bytes.now))
        log.old readings.now [] tt)
        log.old log.new result }
{
    match (form.mode, form.coded) {
        (Mode::Blocking, false) => i2c::calls::blocking_write(address, bytes, readings, log),
        (Mode::Blocking, true) => i2c::coded::blocking_write_pec(address, bytes, readings, log),
        (Mode::Async, false) => i2c::calls::write_async(address, bytes, readings, log),
        (Mode::Async, true) => i2c::coded::write_async_pec(address, bytes, readings, log),
    }
}

fn write_read(
    form: Form,
    address: u16,
    bytes: &[u8],
    room: &mut [u8],
    readings: &[u32],
    log: &mut [u32],
) -> Ran
    ensures { LeavesBuffer
        (expected (within_form form address (fits (length bytes.now) && fits (length room.old))
        (Master.write_read bytes.now (length room.old)))
        log.old readings.now room.old tt)
        log.old log.new room.new result }
{
    match (form.mode, form.coded) {
        (Mode::Blocking, false) => i2c::calls::blocking_write_read(
            address, bytes, room, readings, log,
        ),
        (Mode::Blocking, true) => i2c::coded::blocking_write_read_pec(
            address, bytes, room, readings, log,
        ),
        (Mode::Async, false) => i2c::calls::write_read_async(address, bytes, room, readings, log),
        (Mode::Async, true) => i2c::coded::write_read_async_pec(
            address, bytes, room, readings, log,
        ),
    }
}

fn transact(
    form: Form,
    address: u16,
    operations: Operations,
    room: &mut [u8],
    readings: &[u32],
    log: &mut [u32],
) -> Ran
    ensures { LeavesBuffer
        (expected (within_form form address
        (lists operations.entry.kinds.now operations.entry.lengths.now
        (length operations.entry.bytes.now) (length room.old))
        (Master.transaction (Master.listed operations.entry.kinds.now
        operations.entry.lengths.now operations.entry.bytes.now)))
        log.old readings.now room.old tt)
        log.old log.new room.new result }
{
    let kinds = operations.kinds;
    let lengths = operations.lengths;
    let bytes = operations.bytes;
    match (form.mode, form.coded) {
        (Mode::Blocking, false) => i2c::calls::transaction(
            address, kinds, lengths, bytes, room, readings, log,
        ),
        (Mode::Blocking, true) => i2c::coded::transaction_pec(
            address, kinds, lengths, bytes, room, readings, log,
        ),
        (Mode::Async, false) => i2c::calls::transaction_async(
            address, kinds, lengths, bytes, room, readings, log,
        ),
        (Mode::Async, true) => i2c::coded::transaction_async_pec(
            address, kinds, lengths, bytes, room, readings, log,
        ),
    }
}

// A transfer that reads into the first bytes of the buffer. What is asked of `work` stays
// clauses: `Roomy` would ask for a buffer of 4,096 bytes, however few are read.
pub fn transfer(
    form: Form,
    address: u16,
    operations: Operations,
    readings: &[u32],
    work: &mut Workspace,
)
    requires few { operations.room ≤ 4096 }
    requires fits { operations.room ≤ length work.old.buffer.now }
    requires log { length work.old.log.now ≡ LOG_WORDS }
    requires text { Room MOST_TEXT work.old.text }
    ensures same { SameSpace work.old work.new }
    ensures ran { Transferred form address (listed_of operations.entry)
        readings.now work.old.text work.new.text }
    ensures kept { drop operations.entry.room work.new.buffer.now
        ≡ drop operations.entry.room work.old.buffer.now }
{
    let has_read = has_read(operations);
    let bytes = operations.bytes;
    let log = &mut *work.log;
    let room = &mut work.buffer[..operations.room];
    clear(room);
    match form.kind {
        Kind::Read => {
            let ran = read(form, address, room, readings, log);
            push_outcome(&mut work.text, log, ran, has_read.then_some(&*room))
        }
        Kind::Write => {
            let ran = write(form, address, bytes, readings, log);
            push_outcome(&mut work.text, log, ran, has_read.then_some(b""))
        }
        Kind::WriteRead => {
            let ran = write_read(form, address, bytes, room, readings, log);
            push_outcome(&mut work.text, log, ran, has_read.then_some(&*room))
        }
        Kind::Transaction => {
            let ran = transact(form, address, operations, room, readings, log);
            push_outcome(&mut work.text, log, ran, has_read.then_some(&*room))
        }
    }
}
