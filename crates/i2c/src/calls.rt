// The eight transfers, in the Rust's names. Each is given the lent buffers,
// the readings and the log; what it leaves is the outcome of the Rust on them.
ghost use Rattle.std.specs.Prelude.{false, [], ◌≡◌, length};
ghost use Rattle.regs.specs.Log.{Leaves, LeavesBuffer, expected};
ghost use Rattle.master.specs.Operations as Spec;
ghost use Rattle.master.specs.Transfer.{read_call, write_call, write_read_call, transaction_call};

use super::forms::Way;
use regs::access::Ran;
use transfer::Mode;
use transfer::operations::Operations;

// The calls stay one for each name of the Rust, and `kinds` stays beside `lengths` in them: callers in C
// lend the two so.

// A call without a packet error code.
fn plain(mode: Mode, address: u16) -> Way
    ensures { result ≡ record { mode = mode; address = address; coded = false } }
{
    Way {
        mode,
        address,
        coded: false,
    }
}

// Reads from the address into the buffer, and ends when it is done.
// It and its three kin stay calls of their own: the Rust names them.
pub fn blocking_read(address: u16, read: &mut [u8], readings: &[u32], log: &mut [u32]) -> Ran
    ensures { LeavesBuffer
        (expected (read_call Spec.blocking address (length read.old)) log.old
        readings.now read.old tt)
        log.old log.new read.new result }
{
    plain(Mode::Blocking, address).read(read, readings, log)
}

// Writes the bytes to the address, and ends when it is done.
// It and its three kin stay calls of their own: the Rust names them.
pub fn blocking_write(address: u16, write: &[u8], readings: &[u32], log: &mut [u32]) -> Ran
    ensures { Leaves
        (expected (write_call Spec.blocking address write.now) log.old
        readings.now [] tt)
        log.old log.new result }
{
    plain(Mode::Blocking, address).write(write, readings, log)
}

// Writes the bytes to the address, then reads from it into the buffer, and ends when it is done.
// It and its three kin stay calls of their own: the Rust names them.
pub fn blocking_write_read(
    address: u16,
    write: &[u8],
    read: &mut [u8],
    readings: &[u32],
    log: &mut [u32],
) -> Ran
    ensures { LeavesBuffer
        (expected (write_read_call Spec.blocking address write.now (length read.old))
        log.old readings.now read.old tt)
        log.old log.new read.new result }
{
    plain(Mode::Blocking, address).write_read(write, read, readings, log)
}

// The operations that kinds (0 a read, 1 a write) and lengths list,
// beside one write and one read buffer, and ends when it is done.
// It and its three kin stay calls of their own: the Rust names them.
pub fn transaction(
    address: u16,
    kinds: &[u8],
    lengths: &[u16],
    write: &[u8],
    read: &mut [u8],
    readings: &[u32],
    log: &mut [u32],
) -> Ran
    ensures { LeavesBuffer
        (expected (transaction_call Spec.blocking address kinds.now lengths.now
        write.now (length read.old))
        log.old readings.now read.old tt)
        log.old log.new read.new result }
{
    plain(Mode::Blocking, address).transact(
        &Operations { kinds, lengths },
        write,
        read,
        readings,
        log,
    )
}

// Reads from the address into the buffer, by polls.
pub fn read_async(address: u16, read: &mut [u8], readings: &[u32], log: &mut [u32]) -> Ran
    ensures { LeavesBuffer
        (expected (read_call Spec.async address (length read.old)) log.old
        readings.now read.old tt)
        log.old log.new read.new result }
{
    plain(Mode::Async, address).read(read, readings, log)
}

// Writes the bytes to the address, by polls.
pub fn write_async(address: u16, write: &[u8], readings: &[u32], log: &mut [u32]) -> Ran
    ensures { Leaves
        (expected (write_call Spec.async address write.now) log.old
        readings.now [] tt)
        log.old log.new result }
{
    plain(Mode::Async, address).write(write, readings, log)
}

// Writes the bytes to the address, then reads from it into the buffer, by polls.
pub fn write_read_async(
    address: u16,
    write: &[u8],
    read: &mut [u8],
    readings: &[u32],
    log: &mut [u32],
) -> Ran
    ensures { LeavesBuffer
        (expected (write_read_call Spec.async address write.now (length read.old))
        log.old readings.now read.old tt)
        log.old log.new read.new result }
{
    plain(Mode::Async, address).write_read(write, read, readings, log)
}

// The operations that kinds (0 a read, 1 a write) and lengths
// list, beside one write and one read buffer, by polls.
pub fn transaction_async(
    address: u16,
    kinds: &[u8],
    lengths: &[u16],
    write: &[u8],
    read: &mut [u8],
    readings: &[u32],
    log: &mut [u32],
) -> Ran
    ensures { LeavesBuffer
        (expected (transaction_call Spec.async address kinds.now lengths.now
        write.now (length read.old))
        log.old readings.now read.old tt)
        log.old log.new read.new result }
{
    plain(Mode::Async, address).transact(&Operations { kinds, lengths }, write, read, readings, log)
}
