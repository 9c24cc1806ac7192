// The picture of a log's bus sequence: the signs one after the other, and the whole.
#![tactic(auto)]

ghost use Rattle.std.specs.Prelude.{◌+◌, ◌*◌, ◌≤◌, ◌≡◌, length};
ghost use Rattle.text_hex.specs.Added.{Room, Added};
ghost use Rattle.text_hex.specs.Appended.{Appended};
ghost use Rattle.svg_text.specs.Picture.{last_row, signs_text, note_text, svg_text, picture};

use bus::Sign;
use explain_bus::sequence::Sequence;
use svg_text::head::{push_head, push_number};
use svg_text::place::{Place, width_of};
use svg_text::sign::push_sign;
use text_hex::text::Text;

// How many signs are drawn, and the room for the text.
pub const DRAWN: usize = 256;

pub const ROOM: usize = 53000;

// Where the first sign stands.
const FIRST: Place = Place { x: 60, y: 70 };

// That only the first signs are drawn.
#[tactic(auto, using(text_hex::proofs::Adding::no_text), unfolding(svg_text::specs::Picture::note_text))]
fn push_note(text: &mut Text, y: u32, n: u32)
    requires { Room 73 text.old }
    ensures { Added text.old (note_text y n) 73 text.new }
{
    if n > 256 {
        text.push_text(b"<text class=\"n\" x=\"16\" y=\"");
        push_number(text, y);
        text.push_text(b"\">the first 256 of ");
        push_number(text, n);
        text.push_text(b" entries</text>\n");
    }
}

// The signs that are drawn, and how many the whole sequence has.
#[derive(Clone, Copy)]
struct Drawn<'a> {
    signs: &'a [Sign],
    entries: u32,
    ghost few: { length signs.now ≤ 256 },
}

impl Drawn<'_> {
    // Where the last row of the signs stands.
    fn last_row(self) -> u32
        ensures same { result ≡ last_row 60 70 self.entry.signs.now }
        ensures low { result ≤ 70 + 120 * length self.entry.signs.now }
    {
        let mut end = FIRST;
        for &sign in self.signs {
            let width = width_of(sign);
            end = end.of_next(width).behind(width);
        }
        end.y
    }

    fn push_signs(self, text: &mut Text)
        requires { Room (196 * length self.signs.now) text.old }
        ensures { Added text.old (signs_text 60 70 self.entry.signs.now)
            (196 * length self.entry.signs.now) text.new }
    {
        let mut end = FIRST;
        for &sign in self.signs {
            let width = width_of(sign);
            let place = end.of_next(width);
            push_sign(text, place, sign);
            end = place.behind(width);
        }
    }

    fn push(self, text: &mut Text)
        requires { Room 53000 text.old }
        ensures { Added text.old (svg_text self.entry.signs.now self.entry.entries) 53000 text.new }
    {
        let y = self.last_row();
        push_head(text, y + 130);
        self.push_signs(text);
        push_note(text, y + 124, self.entries);
        text.push_text(b"</svg>\n");
    }

    // The whole text, from the start of a buffer on. Says where it ends.
    fn put(self, out: &mut [u8]) -> usize
        requires { 53000 ≤ length out.old }
        ensures { Appended out.old 0 (svg_text self.entry.signs.now self.entry.entries) 53000 out.new result }
    {
        let mut text = Text::new(out, 0);
        self.push(&mut text);
        text.at
    }
}

// The picture of a log, in a buffer lent for it; its sequence is put into another. Says how long the text
// is. That stays a number, 0 where the log puts nothing on the bus: an empty text ends there. `log` and
// `places` stay two parameters, as in `Sequence::of`.
// `places` and `out` stay two buffers: the one holds signs, the other bytes.
#[tactic(auto, using(text_hex::proofs::Appends::nothing), unfolding(svg_text::specs::Picture::picture))]
pub fn picture(log: &[u32], places: &mut [Sign], out: &mut [u8]) -> usize
    ensures { Appended out.old 0
        (picture log.now (length places.old) (length out.old))
        (length out.old) out.new result }
{
    let Some(sequence) = Sequence::of(log, places) else {
        return 0;
    };
    let count = sequence.signs.len();
    if out.len() < ROOM || count == 0 {
        return 0;
    }
    let drawn = Drawn {
        signs: &sequence.signs[..count.min(DRAWN)],
        entries: count as u32,
    };
    drawn.put(out)
}
