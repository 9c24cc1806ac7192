// The eight transfers with a packet error code for programs in C or Rust, and that code by itself.
// A call stays a function for each exported name, and `kinds` stays a slice of numbers beside `lengths`: the
// C interface.
ghost use Rattle.std.specs.Prelude.{◌≡◌, true, []};
ghost use Rattle.crc8.specs.Crc8.{crc8_from};
ghost use Rattle.regs.specs.Log.{expected};
ghost use Rattle.master.specs.Operations as Spec;
ghost use Rattle.master.specs.Calls.{program_by, reads_into, writes_from, writes_then_reads, transacts};
ghost use Rattle.export_reports.specs.Report.{Reports, ReportsBuffer};

use export_reports::Report;

// The code over bytes, from 0 on or from the code of what came before them.
#[unsafe(no_mangle)]
pub extern "C" fn celadonsaw_crc8(start: u8, bytes: &[u8]) -> u8
    ensures { result ≡ crc8_from start bytes.now }
{
    crc8::crc8_from(start, bytes)
}

// Reads from the address into the buffer and tests the code that follows, and ends when it is done.
// It and its three kin stay functions of their own: C links them by their names.
#[unsafe(no_mangle)]
pub extern "C" fn celadonsaw_blocking_read_pec(
    address: u16,
    read: &mut [u8],
    readings: &[u32],
    log: &mut [u32],
) -> Report
    ensures { ReportsBuffer
        (expected (program_by true Spec.blocking address (reads_into read.old))
        log.old readings.now read.old tt)
        log.old log.new read.new result }
{
    Report::from(i2c::coded::blocking_read_pec(address, read, readings, log))
}

// Writes the bytes and their code to the address, and ends when it is done.
// It and its three kin stay functions of their own: C links them by their names.
#[unsafe(no_mangle)]
pub extern "C" fn celadonsaw_blocking_write_pec(
    address: u16,
    write: &[u8],
    readings: &[u32],
    log: &mut [u32],
) -> Report
    ensures { Reports
        (expected (program_by true Spec.blocking address (writes_from write.now))
        log.old readings.now [] tt)
        log.old log.new result }
{
    Report::from(i2c::coded::blocking_write_pec(address, write, readings, log))
}

// Writes the bytes to the address, then reads from it into the buffer and tests the code that
// follows, and ends when it is done.
// It and its three kin stay functions of their own: C links them by their names.
#[unsafe(no_mangle)]
pub extern "C" fn celadonsaw_blocking_write_read_pec(
    address: u16,
    write: &[u8],
    read: &mut [u8],
    readings: &[u32],
    log: &mut [u32],
) -> Report
    ensures { ReportsBuffer
        (expected (program_by true Spec.blocking address
        (writes_then_reads write.now read.old))
        log.old readings.now read.old tt)
        log.old log.new read.new result }
{
    Report::from(i2c::coded::blocking_write_read_pec(address, write, read, readings, log))
}

// Does the operations that kinds (0 a read, 1 a write) and lengths list, with the code at the end
// of the last, and ends when it is done.
// It and its three kin stay functions of their own, and `address`, `kinds`, `lengths`, `write` and `read`
// stay parameters: C links and lends them so.
#[unsafe(no_mangle)]
pub extern "C" fn celadonsaw_transaction_pec(
    address: u16,
    kinds: &[u8],
    lengths: &[u16],
    write: &[u8],
    read: &mut [u8],
    readings: &[u32],
    log: &mut [u32],
) -> Report
    ensures { ReportsBuffer
        (expected (program_by true Spec.blocking address
        (transacts kinds.now lengths.now write.now read.old))
        log.old readings.now read.old tt)
        log.old log.new read.new result }
{
    Report::from(i2c::coded::transaction_pec(address, kinds, lengths, write, read, readings, log))
}

// Reads from the address into the buffer and tests the code that follows, by polls.
#[unsafe(no_mangle)]
pub extern "C" fn celadonsaw_read_async_pec(
    address: u16,
    read: &mut [u8],
    readings: &[u32],
    log: &mut [u32],
) -> Report
    ensures { ReportsBuffer
        (expected (program_by true Spec.async address (reads_into read.old))
        log.old readings.now read.old tt)
        log.old log.new read.new result }
{
    Report::from(i2c::coded::read_async_pec(address, read, readings, log))
}

// Writes the bytes and their code to the address, by polls.
#[unsafe(no_mangle)]
pub extern "C" fn celadonsaw_write_async_pec(
    address: u16,
    write: &[u8],
    readings: &[u32],
    log: &mut [u32],
) -> Report
    ensures { Reports
        (expected (program_by true Spec.async address (writes_from write.now))
        log.old readings.now [] tt)
        log.old log.new result }
{
    Report::from(i2c::coded::write_async_pec(address, write, readings, log))
}

// Writes the bytes to the address, then reads from it into the buffer and tests the code that
// follows, by polls.
#[unsafe(no_mangle)]
pub extern "C" fn celadonsaw_write_read_async_pec(
    address: u16,
    write: &[u8],
    read: &mut [u8],
    readings: &[u32],
    log: &mut [u32],
) -> Report
    ensures { ReportsBuffer
        (expected (program_by true Spec.async address
        (writes_then_reads write.now read.old))
        log.old readings.now read.old tt)
        log.old log.new read.new result }
{
    Report::from(i2c::coded::write_read_async_pec(address, write, read, readings, log))
}

// Does the operations that kinds (0 a read, 1 a write) and lengths list, with the code at the end
// of the last, by polls.
#[unsafe(no_mangle)]
pub extern "C" fn celadonsaw_transaction_async_pec(
    address: u16,
    kinds: &[u8],
    lengths: &[u16],
    write: &[u8],
    read: &mut [u8],
    readings: &[u32],
    log: &mut [u32],
) -> Report
    ensures { ReportsBuffer
        (expected (program_by true Spec.async address
        (transacts kinds.now lengths.now write.now read.old))
        log.old readings.now read.old tt)
        log.old log.new read.new result }
{
    Report::from(i2c::coded::transaction_async_pec(
        address, kinds, lengths, write, read, readings, log,
    ))
}
