// The four forms of a transfer, for the plain calls and for those with a packet error code, blocking or
// by polls. A transfer with a code is run with 0 for it, which is then put into the log or tested.
ghost use Rattle.std.specs.Prelude.{true, false, [], ◌≡◌, ◌/◌, length};
ghost use Rattle.regs.specs.Log.{Leaves, LeavesBuffer, expected};
ghost use Rattle.regs.specs.Watched.{watched};
ghost use Rattle.regs.specs.Inner.Machine.{final, ran};
ghost use Rattle.master.specs.Calls.{program_by, reads_into, writes_from, writes_then_reads, transacts};
ghost use Rattle.master.specs.Coded.{coder, longer_transfer, with_code};
ghost use Rattle.master.specs.Driver.{reason_of};
ghost use Rattle.master.specs.Operations.{lists, listed};
ghost use Rattle.transfer.specs.Inner.Points.{mode_of};
ghost use Rattle.transfer.specs.Inner.Machine.{machine, started};

use super::limits::{are_fitting, is_fitting, is_listed, refuse};
use regs::access::Ran;
use transfer::Mode;
use transfer::operations::{Operations, Plan};
use transfer_code::code::Message;
use transfer_code::settle::settle;
use transfer_run::drive;

// How a transfer is called: to which address, whether by polls, and whether it has a packet error code. It
// stays a type beside the form of the replay, which has no address and says which of the calls is meant.
#[derive(Clone, Copy)]
pub struct Way {
    pub mode: Mode,
    pub address: u16,
    pub coded: bool,
}

impl Way {
    // Runs operations within the limits.
    fn run(
        self,
        restart: bool,
        operations: &Operations,
        write: &[u8],
        read: &mut [u8],
        readings: &[u32],
        log: &mut [u32],
    ) -> Ran
        requires { lists operations.now.kinds.now operations.now.lengths.now (length write.now)
            (length read.old) ≡ true }
        ensures plain { self.coded ≡ false → final result.reply result.entries result.used log.new
            read.new tt
            ≡ ran (machine false operations.now.kinds.now operations.now.lengths.now write.now)
            readings.now (length log.old / 2)
            (started self.mode restart self.address operations.now.kinds.now) 0 0 log.old read.old }
        ensures coded { self.coded ≡ true → LeavesBuffer
            (expected
            (watched (coder self.address (listed operations.now.kinds.now operations.now.lengths.now
            write.now))
            (longer_transfer reason_of (mode_of self.mode) restart self.address
            (with_code 0 (listed operations.now.kinds.now operations.now.lengths.now write.now))))
            log.old readings.now read.old tt)
            log.old log.new read.new result }
    {
        let t = transfer_steps::start(self.mode, restart, self.address, operations);
        let plan = Plan {
            operations: *operations,
            coded: self.coded,
        };
        let ran = drive(t, &plan, write, readings, log, read);
        if self.coded {
            let message = Message {
                address: self.address,
                operations: *operations,
                write,
                read: &*read,
            };
            settle(ran, &message, log)
        } else {
            ran
        }
    }

    // Reads into the buffer. It stays apart from `write`: a buffer that is filled and one that is sent are lent
    // in two ways, and the two promise something of other buffers.
    pub fn read(self, read: &mut [u8], readings: &[u32], log: &mut [u32]) -> Ran
        ensures { LeavesBuffer
            (expected (program_by self.coded (mode_of self.mode) self.address (reads_into read.old))
            log.old readings.now read.old tt)
            log.old log.new read.new result }
    {
        let n = read.len();
        if is_fitting(n) {
            let operations = Operations {
                kinds: &[0u8],
                lengths: &[n as u16],
            };
            self.run(true, &operations, b"", read, readings, log)
        } else {
            refuse()
        }
    }

    // Writes the bytes.
    pub fn write(self, write: &[u8], readings: &[u32], log: &mut [u32]) -> Ran
        ensures { Leaves
            (expected (program_by self.coded (mode_of self.mode) self.address
            (writes_from write.now))
            log.old readings.now [] tt)
            log.old log.new result }
    {
        let n = write.len();
        if is_fitting(n) {
            let operations = Operations {
                kinds: &[1u8],
                lengths: &[n as u16],
            };
            let mut none = [0u8; 0];
            self.run(true, &operations, write, &mut none, readings, log)
        } else {
            refuse()
        }
    }

    // Writes the bytes, then reads into the buffer.
    pub fn write_read(self, write: &[u8], read: &mut [u8], readings: &[u32], log: &mut [u32]) -> Ran
        ensures { LeavesBuffer
            (expected (program_by self.coded (mode_of self.mode) self.address
            (writes_then_reads write.now read.old))
            log.old readings.now read.old tt)
            log.old log.new read.new result }
    {
        let m = write.len();
        let n = read.len();
        if are_fitting(m, n) {
            let operations = Operations {
                kinds: &[1u8, 0u8],
                lengths: &[m as u16, n as u16],
            };
            self.run(true, &operations, write, read, readings, log)
        } else {
            refuse()
        }
    }

    // Does the operations.
    pub fn transact(
        self,
        operations: &Operations,
        write: &[u8],
        read: &mut [u8],
        readings: &[u32],
        log: &mut [u32],
    ) -> Ran
        ensures { LeavesBuffer
            (expected (program_by self.coded (mode_of self.mode) self.address
            (transacts operations.now.kinds.now operations.now.lengths.now write.now read.old))
            log.old readings.now read.old tt)
            log.old log.new read.new result }
    {
        if is_listed(operations, write.len(), read.len()) {
            self.run(false, operations, write, read, readings, log)
        } else {
            refuse()
        }
    }
}
