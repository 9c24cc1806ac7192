// The eight transfers with a packet error code: arguments and limits are those of the plain ones,
// and the code is not among the lent bytes. A transfer is run with 0 for its code, which is then put
// into the log or tested.
ghost use Rattle.std.specs.Prelude.{true, [], ◌≡◌};
ghost use Rattle.regs.specs.Log.{Leaves, LeavesBuffer, expected};
ghost use Rattle.master.specs.Calls.{program_by, reads_into, writes_from, writes_then_reads, transacts};
ghost use Rattle.master.specs.Operations as Spec;

use super::forms::Way;
use regs::access::Ran;
use transfer::Mode;
use transfer::operations::Operations;

// The calls stay one for each name, as the plain ones, and `kinds` stays beside `lengths`: callers in C lend
// the two so.

// A call with a packet error code.
fn with_code(mode: Mode, address: u16) -> Way
    ensures { result ≡ record { mode = mode; address = address; coded = true } }
{
    Way {
        mode,
        address,
        coded: true,
    }
}

// Reads from the address into the buffer and tests the code that follows, and ends when it is done.
pub fn blocking_read_pec(address: u16, read: &mut [u8], readings: &[u32], log: &mut [u32]) -> Ran
    ensures { LeavesBuffer
        (expected (program_by true Spec.blocking address (reads_into read.old))
        log.old readings.now read.old tt)
        log.old log.new read.new result }
{
    with_code(Mode::Blocking, address).read(read, readings, log)
}

// Writes the bytes and their code to the address, and ends when it is done.
pub fn blocking_write_pec(address: u16, write: &[u8], readings: &[u32], log: &mut [u32]) -> Ran
    ensures { Leaves
        (expected (program_by true Spec.blocking address (writes_from write.now))
        log.old readings.now [] tt)
        log.old log.new result }
{
    with_code(Mode::Blocking, address).write(write, readings, log)
}

// Writes the bytes to the address, then reads from it into the buffer and tests the code that
// follows, and ends when it is done.
pub fn blocking_write_read_pec(
    address: u16,
    write: &[u8],
    read: &mut [u8],
    readings: &[u32],
    log: &mut [u32],
) -> Ran
    ensures { LeavesBuffer
        (expected (program_by true Spec.blocking address (writes_then_reads write.now
        read.old))
        log.old readings.now read.old tt)
        log.old log.new read.new result }
{
    with_code(Mode::Blocking, address).write_read(write, read, readings, log)
}

// Does the operations that kinds (0 a read, 1 a write) and lengths list, beside one write and one
// read buffer, with a code at the end of the last one, and ends when it is done.
pub fn transaction_pec(
    address: u16,
    kinds: &[u8],
    lengths: &[u16],
    write: &[u8],
    read: &mut [u8],
    readings: &[u32],
    log: &mut [u32],
) -> Ran
    ensures { LeavesBuffer
        (expected (program_by true Spec.blocking address (transacts kinds.now lengths.now
        write.now read.old))
        log.old readings.now read.old tt)
        log.old log.new read.new result }
{
    with_code(Mode::Blocking, address).transact(
        &Operations { kinds, lengths },
        write,
        read,
        readings,
        log,
    )
}

// Reads from the address into the buffer and tests the code that follows, by polls.
pub fn read_async_pec(address: u16, read: &mut [u8], readings: &[u32], log: &mut [u32]) -> Ran
    ensures { LeavesBuffer
        (expected (program_by true Spec.async address (reads_into read.old))
        log.old readings.now read.old tt)
        log.old log.new read.new result }
{
    with_code(Mode::Async, address).read(read, readings, log)
}

// Writes the bytes and their code to the address, by polls.
pub fn write_async_pec(address: u16, write: &[u8], readings: &[u32], log: &mut [u32]) -> Ran
    ensures { Leaves
        (expected (program_by true Spec.async address (writes_from write.now))
        log.old readings.now [] tt)
        log.old log.new result }
{
    with_code(Mode::Async, address).write(write, readings, log)
}

// Writes the bytes to the address, then reads from it into the buffer and tests the code that
// follows, by polls.
pub fn write_read_async_pec(
    address: u16,
    write: &[u8],
    read: &mut [u8],
    readings: &[u32],
    log: &mut [u32],
) -> Ran
    ensures { LeavesBuffer
        (expected (program_by true Spec.async address (writes_then_reads write.now
        read.old))
        log.old readings.now read.old tt)
        log.old log.new read.new result }
{
    with_code(Mode::Async, address).write_read(write, read, readings, log)
}

// Does the operations that kinds (0 a read, 1 a write) and lengths list, beside one write and one
// read buffer, with a code at the end of the last one, by polls.
pub fn transaction_async_pec(
    address: u16,
    kinds: &[u8],
    lengths: &[u16],
    write: &[u8],
    read: &mut [u8],
    readings: &[u32],
    log: &mut [u32],
) -> Ran
    ensures { LeavesBuffer
        (expected (program_by true Spec.async address (transacts kinds.now lengths.now
        write.now read.old))
        log.old readings.now read.old tt)
        log.old log.new read.new result }
{
    with_code(Mode::Async, address).transact(
        &Operations { kinds, lengths },
        write,
        read,
        readings,
        log,
    )
}
