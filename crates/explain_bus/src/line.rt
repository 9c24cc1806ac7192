// The bus sequence of a transfer as text.
ghost use Rattle.std.specs.Prelude.{◌≡◌, ◌+◌, ◌*◌, ◌<◌, ◌≤◌, length, if◌then◌else◌};
ghost use Rattle.text_hex.specs.Added.{Room, Added};
ghost use Rattle.text_hex.specs.Appended.{Appended};
ghost use Rattle.explain_bus.specs.Line.{address_text, byte_text, run_text, sign_text, signs_text};
ghost use Rattle.explain_bus.specs.Line.{sequence_text, bus_line};

use super::sequence::Sequence;
use bus::Sign;
use text_hex::text::Text;
use text_tables::decimal::push_digits;

// The letter of a direction.
pub fn letter(read: bool) -> u8
    ensures { result ≡ (if read then 114 else 119) }
{
    if read { b'r' } else { b'w' }
}

fn push_address(text: &mut Text, byte: u32)
    requires { Room 9 text.old }
    ensures { Added text.old (address_text byte) 9 text.new }
{
    text.push(b' ');
    text.push_hex2(byte / 2);
    text.push(letter(byte % 2 != 0));
}

// A written byte.
pub fn push_byte(text: &mut Text, byte: u32)
    requires { Room 9 text.old }
    ensures { Added text.old (byte_text byte) 9 text.new }
{
    text.push(b' ');
    text.push_hex2(byte);
}

// The count of a run of read slots.
#[tactic(auto, using(text_hex::proofs::Adding::no_text), unfolding(crate::specs::Line::run_text))]
pub fn push_run(text: &mut Text, run: u32)
    requires { Room (8 * run) text.old }
    ensures { Added text.old (run_text run) (8 * run) text.new }
{
    if run == 0 {
        return;
    }
    text.push(b' ');
    text.push(b'[');
    push_digits(text, 5, u64::from(run));
    text.push(b']');
}

// A sign alone; a read slot is a run of one. It stays a function over a text, not a Display: no clause
// says what a Formatter was given, and texts here are proved byte for byte.
// `text` and `sign` stay two parameters: a text is lent for many signs.
#[tactic(auto, using(text_hex::proofs::Adding::at_most))]
pub fn push_sign(text: &mut Text, sign: Sign)
    requires { Room 9 text.old }
    ensures { Added text.old (sign_text sign) 9 text.new }
{
    match sign {
        Sign::Start => text.push_text(b" START"),
        Sign::Restart => text.push_text(b" RESTART"),
        Sign::Stop => text.push_text(b" STOP"),
        Sign::Address(byte) => push_address(text, u32::from(byte)),
        Sign::Written(byte) => push_byte(text, u32::from(byte)),
        Sign::ReadSlot => push_run(text, 1),
    }
}

// The room for the text of a sequence.
pub const ROOM: usize = 294921;

// The line of a log, in a buffer lent for it; its sequence is put into another. Says where the line ends.
// That stays a number, 0 where there is no line: an empty text ends there. It stays beside `picture` of
// `svg_picture`: what the two share is `Sequence::of`, and the rest is the text and the room of each.
// `places` and `out` stay two buffers: the one holds signs, the other bytes.
pub fn bus_line(log: &[u32], places: &mut [Sign], out: &mut [u8]) -> usize
    ensures { Appended out.old 0
        (bus_line log.now (length places.old) (length out.old))
        (length out.old) out.new result }
{
    let Some(sequence) = Sequence::of(log, places) else {
        return 0;
    };
    if out.len() < ROOM {
        return 0;
    }
    sequence.put(out)
}
