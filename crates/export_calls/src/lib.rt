// The public calls for programs in C or Rust, as functions of a static library
// (`rt lib` here makes it). Each forwards to the call of the same name;
// numbers, slices and structs of numbers go through, and an answer is given by
// its number and detail (docs/MANUAL.md). A slice is a pointer and a length.
// Here and in the modules below a call stays a function for each exported name, and kinds stay a slice of
// numbers beside their lengths, as C links and lends them.
#![tactic(auto)]

pub mod coded_calls; // the transfers with a packet error code
pub mod slave_calls; // the slave's calls, with the state by value

ghost use Rattle.std.specs.Prelude.{◌≡◌, [], length};
ghost use Rattle.regs.specs.Log.{expected};
ghost use Rattle.regs_causes.specs.Causes.{causes_of};
ghost use Rattle.clock_setting.specs.SetConfig.{set_config};
ghost use Rattle.clock_setting.specs.BusRate.{rated};
ghost use Rattle.master.specs.Operations as Spec;
ghost use Rattle.master.specs.Transfer.{read_call, write_call, write_read_call, transaction_call};
ghost use Rattle.export_reports.specs.Report.{rate_of, cause_numbers, Reports, ReportsBuffer};

use export_reports::{AbortCauses, BusRate, Report};

// Sets the bus frequency for a clock, both in Hz.
#[unsafe(no_mangle)]
pub extern "C" fn celadonsaw_set_config(
    frequency: u32,
    clk: u32,
    readings: &[u32],
    log: &mut [u32],
) -> Report
    ensures { Reports
        (expected (set_config frequency clk) log.old readings.now [] tt)
        log.old log.new result }
{
    Report::from(clock::set_config(frequency, clk, readings, log))
}

// The rate that the bus gets from a setting, or the refusal of `celadonsaw_set_config`.
#[unsafe(no_mangle)]
pub extern "C" fn celadonsaw_bus_rate(frequency: u32, clk: u32) -> BusRate
    ensures { result ≡ rate_of (rated frequency clk) }
{
    BusRate::from(clock::bus_rate(frequency, clk))
}

// The causes of an abort in a raw word of TX_ABRT_SOURCE.
#[unsafe(no_mangle)]
pub extern "C" fn celadonsaw_causes(word: u32) -> AbortCauses
    ensures { result ≡ cause_numbers (causes_of word) }
{
    AbortCauses::from(regs_causes::causes(word))
}

// Reads from the address into the buffer, and ends when it is done.
#[unsafe(no_mangle)]
pub extern "C" fn celadonsaw_blocking_read(
    address: u16,
    read: &mut [u8],
    readings: &[u32],
    log: &mut [u32],
) -> Report
    ensures { ReportsBuffer
        (expected (read_call Spec.blocking address (length read.old))
        log.old readings.now read.old tt)
        log.old log.new read.new result }
{
    Report::from(i2c::calls::blocking_read(address, read, readings, log))
}

// Writes the bytes to the address, and ends when it is done.
#[unsafe(no_mangle)]
pub extern "C" fn celadonsaw_blocking_write(
    address: u16,
    write: &[u8],
    readings: &[u32],
    log: &mut [u32],
) -> Report
    ensures { Reports
        (expected (write_call Spec.blocking address write.now) log.old
        readings.now [] tt)
        log.old log.new result }
{
    Report::from(i2c::calls::blocking_write(address, write, readings, log))
}

// Writes the bytes to the address, then reads from it into the buffer, and ends when it is done.
#[unsafe(no_mangle)]
pub extern "C" fn celadonsaw_blocking_write_read(
    address: u16,
    write: &[u8],
    read: &mut [u8],
    readings: &[u32],
    log: &mut [u32],
) -> Report
    ensures { ReportsBuffer
        (expected
        (write_read_call Spec.blocking address write.now (length read.old))
        log.old readings.now read.old tt)
        log.old log.new read.new result }
{
    Report::from(i2c::calls::blocking_write_read(address, write, read, readings, log))
}

// The operations that kinds (0 a read, 1 a write) and lengths list, and ends when it is done.
#[unsafe(no_mangle)]
pub extern "C" fn celadonsaw_transaction(
    address: u16,
    kinds: &[u8],
    lengths: &[u16],
    write: &[u8],
    read: &mut [u8],
    readings: &[u32],
    log: &mut [u32],
) -> Report
    ensures { ReportsBuffer
        (expected (transaction_call Spec.blocking address kinds.now
        lengths.now write.now (length read.old))
        log.old readings.now read.old tt)
        log.old log.new read.new result }
{
    Report::from(i2c::calls::transaction(address, kinds, lengths, write, read, readings, log))
}

// Reads from the address into the buffer, by polls.
#[unsafe(no_mangle)]
pub extern "C" fn celadonsaw_read_async(
    address: u16,
    read: &mut [u8],
    readings: &[u32],
    log: &mut [u32],
) -> Report
    ensures { ReportsBuffer
        (expected (read_call Spec.async address (length read.old)) log.old
        readings.now read.old tt)
        log.old log.new read.new result }
{
    Report::from(i2c::calls::read_async(address, read, readings, log))
}

// Writes the bytes to the address, by polls.
#[unsafe(no_mangle)]
pub extern "C" fn celadonsaw_write_async(
    address: u16,
    write: &[u8],
    readings: &[u32],
    log: &mut [u32],
) -> Report
    ensures { Reports
        (expected (write_call Spec.async address write.now) log.old
        readings.now [] tt)
        log.old log.new result }
{
    Report::from(i2c::calls::write_async(address, write, readings, log))
}

// Writes the bytes to the address, then reads from it into the buffer, by polls.
#[unsafe(no_mangle)]
pub extern "C" fn celadonsaw_write_read_async(
    address: u16,
    write: &[u8],
    read: &mut [u8],
    readings: &[u32],
    log: &mut [u32],
) -> Report
    ensures { ReportsBuffer
        (expected
        (write_read_call Spec.async address write.now (length read.old))
        log.old readings.now read.old tt)
        log.old log.new read.new result }
{
    Report::from(i2c::calls::write_read_async(address, write, read, readings, log))
}

// The operations that kinds (0 a read, 1 a write) and lengths list, by polls.
#[unsafe(no_mangle)]
pub extern "C" fn celadonsaw_transaction_async(
    address: u16,
    kinds: &[u8],
    lengths: &[u16],
    write: &[u8],
    read: &mut [u8],
    readings: &[u32],
    log: &mut [u32],
) -> Report
    ensures { ReportsBuffer
        (expected (transaction_call Spec.async address kinds.now
        lengths.now write.now (length read.old))
        log.old readings.now read.old tt)
        log.old log.new read.new result }
{
    Report::from(i2c::calls::transaction_async(address, kinds, lengths, write, read, readings, log))
}
