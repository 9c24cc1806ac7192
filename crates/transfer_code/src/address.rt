// The address byte before the bytes of an operation, and where it is taken into the register.
ghost use Rattle.std.specs.Prelude.{◌≡◌};
ghost use Rattle.crc8.specs.Crc8.{crc8_from};
ghost use Rattle.master.specs.Inner.Message.{opened};
ghost use Rattle.transfer.specs.Inner.Operations.{number};
ghost use Rattle.transfer_code.specs.Inner.Coding.{last_number, low_address};

use regs::fields::byte_of;
use transfer::operations::Direction;

// The address byte before an operation: of an address above 0x7F its lower 8 bits.
fn address_byte(address: u16, direction: Direction) -> u8
    ensures { result ≡ low_address address (number direction) }
{
    let twice = u32::from(address) * 2;
    match direction {
        Direction::Write => byte_of(twice),
        Direction::Read => byte_of(twice + 1),
    }
}

// The register before the bytes of an operation: the address byte is taken in first where the
// operation before was of another direction, or there was none.
pub fn opening(crc: u8, address: u16, last: Option<Direction>, direction: Direction) -> u8
    ensures { result ≡ crc8_from crc (opened address (last_number last) (number direction)) }
{
    if last == Some(direction) {
        crc
    } else {
        crc8::next(crc, address_byte(address, direction))
    }
}
