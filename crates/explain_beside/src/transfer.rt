// What stands before a frame of a call, as far as it decides what a word makes of the bus.
ghost use Rattle.std.specs.Prelude.{◌≡◌};
ghost use Rattle.answer_frames.specs.Frames.{frame_of};
ghost use Rattle.regs.specs.Registers.{TAR, DATA_CMD};
ghost use Rattle.explain_beside.specs.Piece.{written_in, opened, moved_on, next};

use answer_frames::{Frame, frame_in};
use bus::Bus;
use regs::fields::address_of;

// The transfer of an open call, from its write to TAR on: the address, and how its words left the bus.
#[derive(Clone, Copy)]
pub struct Transfer {
    pub address: u32,
    pub bus: Bus,
}

// What a line writes to a register.
pub fn written(line: &[u8], register: u8) -> Option<u32>
    ensures { result ≡ written_in register (frame_of line.now) }
{
    match frame_in(line) {
        Some(Frame::Write(offset, w)) if offset % 256 == u32::from(register) => Some(w),
        _ => None,
    }
}

impl Transfer {
    // The transfer that a line opens, on an idle bus.
    fn opened_by(line: &[u8]) -> Option<Transfer>
        ensures { result ≡ opened (written_in TAR (frame_of line.now)) }
    {
        let target = written(line, regs::TAR)?;
        Some(Transfer {
            address: address_of(target),
            bus: Bus::new(),
        })
    }

    fn after(self, line: &[u8]) -> Transfer
        ensures { result ≡ moved_on self (written_in DATA_CMD (frame_of line.now)) }
    {
        match written(line, regs::DATA_CMD) {
            None => self,
            Some(w) => Transfer {
                bus: self.bus.applied(w).bus,
                ..self
            },
        }
    }
}

// What stands before the next line.
pub fn after(before: Option<Transfer>, line: &[u8]) -> Option<Transfer>
    ensures { result ≡ next before (frame_of line.now) }
{
    match before {
        None => Transfer::opened_by(line),
        Some(transfer) => Some(transfer.after(line)),
    }
}
