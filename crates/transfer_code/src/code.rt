// The packet error code of a message: its operations in order, with the bytes to write,
// the bytes that were read, and an address byte where the direction changes.
ghost use Rattle.std.specs.Prelude.{true, ◌≡◌, length};
ghost use Rattle.master.specs.Operations.{lists};

use super::address::opening;
use transfer::operations::{Direction, Operations};

// A transfer whose code is computed: its operations, and the buffers in which their bytes lie.
#[derive(Clone, Copy)]
pub struct Message<'a> {
    pub address: u16,
    pub operations: Operations<'a>,
    pub write: &'a [u8],
    pub read: &'a [u8],
    pub ghost listed: { lists operations.kinds.now operations.lengths.now
        (length write.now) (length read.now) ≡ true },
}

impl Message<'_> {
    ghost use Rattle.transfer_code.specs.Inner.Coding.{code_of_message};

    // The code of its operations, over the bytes to write and those that were read.
    pub fn code(&self) -> u8
        ensures { result ≡ code_of_message self.now }
    {
        let mut coding = Coding::start();
        let operations = self.operations;
        for (kind, n) in operations.kinds.iter().zip(operations.lengths) {
            coding = coding.with_operation(self, Direction::from(*kind), usize::from(*n));
        }
        coding.crc
    }
}

// How far the code is computed: the register, the bytes of each buffer in it, and the direction before.
#[derive(Clone, Copy)]
pub struct Coding {
    pub crc: u8,
    pub sent: usize,
    pub came: usize,
    pub last: Option<Direction>,
}

impl Coding {
    ghost use Rattle.transfer_code.specs.Inner.Coding.{over_nothing, Room, with_operation};

    fn start() -> Coding
        ensures { result ≡ over_nothing }
    {
        Coding {
            crc: 0,
            sent: 0,
            came: 0,
            last: None,
        }
    }

    // One operation more, of n bytes.
    fn with_operation(self, message: &Message, direction: Direction, n: usize) -> Coding
        requires { Room self direction n (length message.now.write.now) (length message.now.read.now) }
        ensures { result ≡ with_operation message.now.address self direction n message.now.write.now
            message.now.read.now }
    {
        let crc = opening(self.crc, message.address, self.last, direction);
        let last = Some(direction);
        match direction {
            Direction::Write => {
                let end = self.sent + n;
                let bytes = &message.write[self.sent..end];
                Coding {
                    crc: crc8::crc8_from(crc, bytes),
                    sent: end,
                    came: self.came,
                    last,
                }
            }
            Direction::Read => {
                let end = self.came + n;
                let bytes = &message.read[self.came..end];
                Coding {
                    crc: crc8::crc8_from(crc, bytes),
                    sent: self.sent,
                    came: end,
                    last,
                }
            }
        }
    }
}
