// The bus between two words, and the sequence that a log makes
// of it (UM10204, and DATA_CMD in the RP2040 datasheet).
#![tactic(auto)]

ghost use Rattle.std.specs.Prelude.{◌≡◌, ◌&&◌, not, ◌+◌, ◌<◌, ◌^◌, [], ◌∷◌, length, get_or, set};
ghost use Rattle.std.proofs.lemmas.List.Edits.{sets};
ghost use Rattle.regs.specs.Fields.{restart, address_field};
ghost use Rattle.regs.specs.Log.{entry, decode, written_to};
ghost use Rattle.regs.specs.Registers.{TAR};
ghost use Rattle.bus.specs.Bus.{direction_of, direction_bit, same, opening_of, opening, byte_sign};
ghost use Rattle.bus.specs.Bus.{closing, after, signs_of, bus_sequence, condition_sign};
ghost use Rattle.bus.specs.Placed.{written_by, Puts};

use regs::access::{Entry, entry_of};
use regs::fields::{address_of, byte_of, has_restart, has_stop, is_read};

// What is seen on the bus: a condition, an address byte with the direction in bit 0, a byte that the
// master writes, or the place of one that it reads. A 10-bit address makes more than a byte.
#[derive(Clone, Copy, PartialEq, Eq)]
pub enum Sign {
    Start,
    Restart,
    Stop,
    Address(u16),
    Written(u8),
    ReadSlot,
}

// A sign as one word: its kind in the upper half, and the byte of those that have one.
impl From<Sign> for u32 {
    ghost use Rattle.bus.specs.Bus.{sign_word};

    ghost from_gives = { λ sign word. word ≡ sign_word sign };

    fn from(sign: Sign) -> u32 {
        match sign {
            Sign::Start => 0x10000,
            Sign::Restart => 0x20000,
            Sign::Stop => 0x30000,
            Sign::Address(byte) => 0x40000 + u32::from(byte),
            Sign::Written(byte) => 0x50000 + u32::from(byte),
            Sign::ReadSlot => 0x60000,
        }
    }
}

// The direction of a byte on the bus.
#[derive(Clone, Copy, PartialEq, Eq)]
pub enum Direction {
    Writing,
    Reading,
}

// The bus between two words. Its operations take it by value and hand back what it has become.
// This stays an enum of its own, not an Option: idle is a state of the bus, which UM10204 calls free.
#[derive(Clone, Copy)]
pub enum Bus {
    Idle,
    Busy(Direction),
}

// A condition that stands before a word's byte, with the address.
#[derive(Clone, Copy)]
pub enum Condition {
    Start,
    Restart,
}

// The bus after a word, and the condition before the word's byte, if there is one.
#[derive(Clone, Copy)]
pub struct Applied {
    pub bus: Bus,
    pub opening: Option<Condition>,
}

// A sequence under way: the buffer that it is put into, and its next place. What comes past the end
// of the buffer is left out.
#[derive(Drop)]
struct SequenceBuffer<'a> {
    places: &'a mut [Sign],
    at: usize,
}

impl Direction {
    // This stays a method, not a From: a word is much else than its direction, which `of` names.
    fn of(w: u32) -> Direction
        ensures { result ≡ direction_of w }
    {
        if is_read(w) {
            Direction::Reading
        } else {
            Direction::Writing
        }
    }

    // This stays a method, not a From: it names the bit of the address byte that holds the direction.
    fn bit(self) -> u16
        ensures value { result ≡ direction_bit self }
        ensures bit { result < 2 }
    {
        self as u16
    }

    // Whether a word goes on in this direction, with nothing before its byte.
    fn goes_on(self, w: u32) -> bool
        ensures { result ≡ (same self (direction_of w) && not (restart w)) }
    {
        self == Direction::of(w) && !has_restart(w)
    }

    // What stands before a word's byte on a bus that is busy in this direction.
    fn opening(self, w: u32) -> Option<Condition>
        ensures { result ≡ opening_of (Bus.Busy self) w }
    {
        if self.goes_on(w) {
            None
        } else {
            Some(Condition::Restart)
        }
    }

    // A word's byte, or its read slot, as it stands in a sequence.
    fn byte(self, w: u32) -> Sign
        ensures { result ≡ byte_sign self w }
    {
        match self {
            Direction::Writing => Sign::Written(byte_of(w)),
            Direction::Reading => Sign::ReadSlot,
        }
    }
}

impl From<Condition> for Sign {
    ghost from_gives = { λ condition sign. sign ≡ condition_sign condition };

    fn from(condition: Condition) -> Sign {
        match condition {
            Condition::Start => Sign::Start,
            Condition::Restart => Sign::Restart,
        }
    }
}

impl Bus {
    pub fn new() -> Bus
        ensures { result ≡ Bus.Idle }
    {
        Bus::Idle
    }

    // The bus that a word leaves: idle after a STOP, else busy in the word's direction.
    fn left_by(w: u32) -> Bus
        ensures { result ≡ after w }
    {
        if has_stop(w) {
            Bus::Idle // STOP frees the bus
        } else {
            Bus::Busy(Direction::of(w))
        }
    }

    // A word applied to the bus: START stands before its byte on an idle bus;
    // on a busy one RESTART, where the direction changes or the word asks for it.
    pub fn applied(self, w: u32) -> Applied
        ensures { (result.opening ≡ opening_of self w)
            × (result.bus ≡ after w) }
    {
        let bus = Bus::left_by(w);
        match self {
            Bus::Idle => Applied {
                bus,
                opening: Some(Condition::Start),
            },
            Bus::Busy(d) => Applied {
                bus,
                opening: d.opening(w),
            },
        }
    }
}

impl SequenceBuffer<'_> {
    // Here and below the clause on `at` stays a clause, not a ghost field: each asks for the places of the
    // signs that it puts, 1 to 4, so no one fact holds between the calls. The place stays tested by its
    // number: the library's `get_mut` does not say what the slice ends as.
    fn put(&mut self, sign: Sign)
        requires { self.old.at + 1 < 2 ^ 64 }
        ensures same_reference { self.new.places.ghost_name ≡ self.old.places.ghost_name }
        ensures place { self.new.places.now ≡ set self.old.places.now self.old.at sign }
        ensures next { self.new.at ≡ self.old.at + 1 }
    {
        if self.at < self.places.len() {
            self.places[self.at] = sign;
        }
        self.at += 1;
    }

    // START or RESTART and the address byte, where a condition stands before a word's byte.
    fn put_opening(&mut self, condition: Option<Condition>, address: u16, d: Direction)
        requires address { address < 1024 }
        requires room { self.old.at + 2 < 2 ^ 64 }
        ensures same_reference { self.new.places.ghost_name ≡ self.old.places.ghost_name }
        ensures put { Puts self.old.places.now self.old.at (opening condition address d)
            self.new.places.now self.new.at }
    {
        if let Some(first) = condition {
            self.put(Sign::from(first));
            self.put(Sign::Address(address * 2 + d.bit()));
        }
    }

    fn put_closing(&mut self, last: bool)
        requires { self.old.at + 1 < 2 ^ 64 }
        ensures same_reference { self.new.places.ghost_name ≡ self.old.places.ghost_name }
        ensures put { Puts self.old.places.now self.old.at (closing last)
            self.new.places.now self.new.at }
    {
        if last {
            self.put(Sign::Stop);
        }
    }

    // Puts what a word makes of the bus, and hands back the bus that it leaves.
    fn put_word(&mut self, bus: Bus, address: u16, w: u32) -> Bus
        requires address { address < 1024 }
        requires room { self.old.at + 4 < 2 ^ 64 }
        ensures same_reference { self.new.places.ghost_name ≡ self.old.places.ghost_name }
        ensures bus { result ≡ after w }
        ensures put { Puts self.old.places.now self.old.at (signs_of bus address w)
            self.new.places.now self.new.at }
    {
        let d = Direction::of(w);
        let applied = bus.applied(w);
        self.put_opening(applied.opening, address, d);
        self.put(d.byte(w));
        self.put_closing(has_stop(w));
        applied.bus
    }
}

// What an entry of a log writes to a register, if it writes to it.
fn written_in(words: &[u32; 2], register: u8) -> Option<u32>
    ensures { result ≡ written_by register (entry (get_or words.now 0 0) (get_or words.now 1 0)) }
{
    match entry_of(words[0], words[1]) {
        Entry::Write(r, v) if r == register => Some(v),
        _ => None,
    }
}

// The address that a log writes to TAR. It stays a number, 0 where the log writes none: every log has a
// sequence, and its words are sent to some address.
pub fn address_in(log: &[u32]) -> u32
    ensures { result ≡ address_field (get_or (written_to TAR (decode log.now)) 0 0) }
{
    let (entries, _) = log.as_chunks::<2>();
    for words in entries {
        if let Some(a) = written_in(words, regs::TAR) {
            return address_of(a);
        }
    }
    0
}

// Writes the bus sequence of a log into a buffer, and says how
// many places it takes: those past the buffer's end are left out.
pub fn bus_sequence(log: &[u32], out: &mut [Sign]) -> usize
    ensures { (result ≡ length (bus_sequence (decode log.now)))
        × (out.new ≡ sets out.old 0 (bus_sequence (decode log.now))) }
{
    let address = address_in(log) as u16;
    let mut sequence = SequenceBuffer { places: out, at: 0 };
    let mut bus = Bus::new();
    let (entries, _) = log.as_chunks::<2>();
    for words in entries {
        if let Some(w) = written_in(words, regs::DATA_CMD) {
            bus = sequence.put_word(bus, address, w);
        }
    }
    sequence.at
}
