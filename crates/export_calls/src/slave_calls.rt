// The slave's calls for programs in C or Rust. The state goes in and comes out by value, as numbers.
ghost use Rattle.std.specs.Prelude.{◌≡◌, [], length};
ghost use Rattle.regs.specs.Log.{expected};
ghost use Rattle.slave.specs.I2cSlave.{reset_call, listen_call, respond_to_read_call, respond_till_stop_call};
ghost use Rattle.slave.specs.I2cSlave.{respond_and_fill_call};
ghost use Rattle.export_reports.specs.Report.{report_of, state_of, numbers_of};
ghost use Rattle.export_reports.specs.Report.{ReportsState, ReportsAll};

use export_reports::{Report, Slave, SlaveReport};
use i2c_slave::Left;

fn both(left: Left) -> SlaveReport
    ensures { (result.state ≡ numbers_of left.state)
        × (result.report ≡ report_of left.ran) }
{
    SlaveReport {
        state: Slave::from(left.state),
        report: Report::from(left.ran),
    }
}

// `reset`, which sets address and general call.
#[unsafe(no_mangle)]
pub extern "C" fn celadonsaw_slave_reset(
    slave: Slave,
    address: u16,
    general_call: bool,
    readings: &[u32],
    log: &mut [u32],
) -> SlaveReport
    ensures { ReportsState
        (expected (reset_call address general_call) log.old readings.now
        [] (state_of slave))
        log.old log.new result }
{
    both(i2c_slave::reset(slave.into(), address, general_call, readings, log))
}

// `listen`, into the buffer.
#[unsafe(no_mangle)]
pub extern "C" fn celadonsaw_slave_listen(
    slave: Slave,
    buffer: &mut [u8],
    readings: &[u32],
    log: &mut [u32],
) -> SlaveReport
    ensures { ReportsAll
        (expected (listen_call (length buffer.old)) log.old
        readings.now buffer.old (state_of slave))
        log.old log.new buffer.new result }
{
    both(i2c_slave::listen(slave.into(), buffer, readings, log))
}

// `respond_to_read`, with the bytes.
#[unsafe(no_mangle)]
pub extern "C" fn celadonsaw_slave_respond_to_read(
    slave: Slave,
    bytes: &[u8],
    readings: &[u32],
    log: &mut [u32],
) -> SlaveReport
    ensures { ReportsState
        (expected (respond_to_read_call bytes.now) log.old
        readings.now [] (state_of slave))
        log.old log.new result }
{
    both(i2c_slave::respond_to_read(slave.into(), bytes, readings, log))
}

// `respond_till_stop`, with the fill byte.
#[unsafe(no_mangle)]
pub extern "C" fn celadonsaw_slave_respond_till_stop(
    slave: Slave,
    fill: u8,
    readings: &[u32],
    log: &mut [u32],
) -> SlaveReport
    ensures { ReportsState
        (expected (respond_till_stop_call fill) log.old readings.now []
        (state_of slave))
        log.old log.new result }
{
    both(i2c_slave::respond_till_stop(slave.into(), fill, readings, log))
}

// `respond_and_fill`, with the bytes and then the fill byte.
#[unsafe(no_mangle)]
pub extern "C" fn celadonsaw_slave_respond_and_fill(
    slave: Slave,
    bytes: &[u8],
    fill: u8,
    readings: &[u32],
    log: &mut [u32],
) -> SlaveReport
    ensures { ReportsState
        (expected (respond_and_fill_call bytes.now fill) log.old
        readings.now [] (state_of slave))
        log.old log.new result }
{
    both(i2c_slave::respond_and_fill(slave.into(), bytes, fill, readings, log))
}
