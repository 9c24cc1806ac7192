// The packet error code of a transfer by steps. Its caller in C holds it as two bytes beside the words: the
// register, and the direction of the last data byte (0 read, 1 written; any other: there was none).
#![tactic(auto)]

ghost use Rattle.std.specs.Prelude.{◌≡◌};
ghost use Rattle.crc8.specs.Crc8.{crc8_from};
ghost use Rattle.master.specs.Inner.Message.{opened};
ghost use Rattle.master.specs.Inner.Running.{with_byte};
ghost use Rattle.transfer.specs.Inner.Operations.{number};
ghost use Rattle.words_code.specs.Inner.Code.{fresh_sum, sum_in, word_by, number_by};
ghost use Rattle.words_code.specs.Inner.Code.{fed_by};

use regs::DATA_CMD;
use regs::fields::{byte_of, has_stop, is_read, word_of};
use transfer::operations::Direction;

// The register before the bytes of an operation, with the kind of the operation and of the one
// before: the address byte is taken in first where they differ. `kind` and `last` stay numbers in
// this file: C holds and is told them so, and any number is a kind.
pub fn opening(crc: u8, address: u16, last: u8, kind: u8) -> u8
    ensures { result ≡ crc8_from crc (opened address last kind) }
{
    if last == kind {
        crc
    } else {
        transfer_code::address::opening(crc, address, None, Direction::from(kind))
    }
}

// Before the first byte.
#[tactic(auto, unfolding(crate::specs::Inner::Code::sum_in))]
pub fn start(code: &mut [u8; 2])
    ensures { sum_in code.new ≡ fresh_sum }
{
    *code = [0, 2];
}

// What is written in place of a word: the word with STOP of a write carries the code.
#[tactic(auto, unfolding(crate::specs::Inner::Code::sum_in, crate::specs::Inner::Code::word_by))]
pub fn word(code: &[u8; 2], register: u8, w: u32) -> u32
    ensures { result ≡ word_by (sum_in code.now) register w }
{
    let [crc, _] = *code;
    if register == DATA_CMD && has_stop(w) && !is_read(w) {
        word_of(crc, false, true, false)
    } else {
        w
    }
}

// The number told at the end: accepted (number and detail 0) becomes 22 where the register is not 0.
#[tactic(auto, unfolding(crate::specs::Inner::Code::sum_in, crate::specs::Inner::Code::number_by))]
pub fn number(code: &[u8; 2], n: u8, detail: u32) -> u8
    ensures { result ≡ number_by (sum_in code.now) n detail }
{
    let [crc, _] = *code;
    if n == 0 && detail == 0 && crc != 0 {
        22
    } else {
        n
    }
}

// Takes in a data byte of this direction, after the address byte where the direction has changed.
fn take_byte(code: &mut [u8; 2], address: u16, direction: Direction, b: u8)
    ensures { sum_in code.new ≡ with_byte address (sum_in code.old) (number direction) b }
{
    let [crc, last] = *code;
    let kind = u8::from(direction);
    *code = [crc8::next(opening(crc, address, last, kind), b), kind];
}

// Takes an access that was made, as it was told, into the code: a byte received (kind 1), or the byte of a
// written word (kind 2; in the word with STOP, the code itself). Words that ask for a byte are left out.
// The kinds are the numbers that programs in C are told.
#[tactic(auto, unfolding(crate::specs::Inner::Code::fed_by))]
pub fn feed(code: &mut [u8; 2], address: u16, kind: u8, register: u8, word: u32, read: u32)
    ensures { sum_in code.new ≡ fed_by address (sum_in code.old) kind register
        word read }
{
    if register == DATA_CMD {
        if kind == 1 {
            take_byte(code, address, Direction::Read, byte_of(read));
        } else if kind == 2 && !is_read(word) {
            take_byte(code, address, Direction::Write, byte_of(word));
        }
    }
}
