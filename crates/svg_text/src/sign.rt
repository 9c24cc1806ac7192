// A sign at its place in the picture.
ghost use Rattle.std.specs.Prelude.{◌+◌, ◌/◌, ◌%◌, ◌≤◌, ◌≡◌, [], ◌∷◌, ◌++◌, length};
ghost use Rattle.text_hex.specs.Text.{hex2};
ghost use Rattle.text_hex.specs.Added.{Room, Added};
ghost use Rattle.svg_text.specs.Picture.{shape_text, bit_text, bits_text, open_text, byte_text};
ghost use Rattle.svg_text.specs.Picture.{direction_text, lanes_text, sign_text};

use super::head::push_number;
use super::place::Place;
use bus::Sign;
use explain_bus::line::letter;
use text_hex::text::Text;

// A shape of the head by its letter. `text` and `place` stay two parameters, here and below: the text is
// what every part is put into, and the place is the sign's alone.
fn push_shape(text: &mut Text, letter: u8, place: Place)
    requires { Room 39 text.old }
    ensures { Added text.old (shape_text letter place.x place.y) 39 text.new }
{
    text.push_text(b"<use href=\"#");
    text.push(letter);
    text.push_text(b"\" x=\"");
    push_number(text, place.x);
    text.push_text(b"\" y=\"");
    push_number(text, place.y);
    text.push_text(b"\"/>\n");
}

// SDA during a bit.
fn push_bit(text: &mut Text, bit: u32)
    requires { Room 6 text.old }
    ensures { Added text.old (bit_text bit) 6 text.new }
{
    if bit == 1 {
        text.push_text(b"V45h12");
    } else {
        text.push_text(b"V65h12");
    }
}

// The eight bits of a byte, the highest first. `text` and `b` stay two parameters: a byte is put by its
// bits, by its digits, and by its letter.
#[tactic(auto, unfolding(crate::specs::Picture::bits_text))]
fn push_bits(text: &mut Text, b: u32)
    requires { Room 48 text.old }
    ensures { Added text.old (bits_text b) 48 text.new }
{
    push_bit(text, b / 128 % 2);
    push_bit(text, b / 64 % 2);
    push_bit(text, b / 32 % 2);
    push_bit(text, b / 16 % 2);
    push_bit(text, b / 8 % 2);
    push_bit(text, b / 4 % 2);
    push_bit(text, b / 2 % 2);
    push_bit(text, b % 2);
}

// A byte's shape, and the beginning of its bits.
#[tactic(auto, unfolding(crate::specs::Picture::open_text))]
fn push_open(text: &mut Text, letter: u8, place: Place)
    requires { Room 70 text.old }
    ensures { Added text.old (open_text letter place.x place.y) 70 text.new }
{
    text.push_text(b"<g transform=\"translate(");
    push_number(text, place.x);
    text.push(b',');
    push_number(text, place.y);
    text.push_text(b")\"><use href=\"#");
    text.push(letter);
    text.push_text(b"\"/><path d=\"M0 65");
}

fn push_address(text: &mut Text, place: Place, b: u32)
    requires { Room 157 text.old }
    ensures { Added text.old
        (byte_text 97 place.x place.y b (hex2 (b / 2) ++ (32 ∷ direction_text b ∷ []))) 157 text.new }
{
    push_open(text, b'a', place);
    push_bits(text, b);
    text.push_text(b"\"/><text x=\"54\" y=\"96\">");
    text.push_hex2(b / 2);
    text.push(b' ');
    text.push(letter(b % 2 != 0).to_ascii_uppercase());
    text.push_text(b"</text></g>\n");
}

fn push_written(text: &mut Text, place: Place, b: u32)
    requires { Room 157 text.old }
    ensures { Added text.old (byte_text 119 place.x place.y b (hex2 b)) 157 text.new }
{
    push_open(text, b'w', place);
    push_bits(text, b);
    text.push_text(b"\"/><text x=\"54\" y=\"96\">");
    text.push_hex2(b);
    text.push_text(b"</text></g>\n");
}

// A sign, without the names of the lanes.
#[tactic(auto, using(text_hex::proofs::Adding::at_most))]
fn push_drawn(text: &mut Text, place: Place, sign: Sign)
    requires { Room 157 text.old }
    ensures { Added text.old (sign_text place.x place.y sign) 157 text.new }
{
    match sign {
        Sign::Address(byte) => push_address(text, place, u32::from(byte)),
        Sign::Written(byte) => push_written(text, place, u32::from(byte)),
        Sign::Start => push_shape(text, b'S', place),
        Sign::Restart => push_shape(text, b'R', place),
        Sign::Stop => push_shape(text, b'P', place),
        Sign::ReadSlot => push_shape(text, b'r', place),
    }
}

// The names of the lanes, before the first sign of a row.
#[tactic(auto, using(text_hex::proofs::Adding::no_text))]
fn push_lanes(text: &mut Text, place: Place)
    requires { Room 39 text.old }
    ensures { Added text.old (lanes_text place.x place.y) 39 text.new }
{
    if place.x == 60 {
        let margin = Place { x: 0, y: place.y };
        push_shape(text, b'l', margin);
    }
}

// A sign, and before the first of a row the names of the lanes. It stays a function over a text, not a
// Display: no clause says what a Formatter was given, and the picture is proved byte for byte.
pub fn push_sign(text: &mut Text, place: Place, sign: Sign)
    requires { Room 196 text.old }
    ensures { Added text.old (lanes_text place.x place.y ++ sign_text place.x place.y sign) 196 text.new }
{
    push_lanes(text, place);
    push_drawn(text, place, sign);
}
