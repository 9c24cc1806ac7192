// The sequence of a whole log, and its text.
ghost use Rattle.std.specs.Prelude.{◌≡◌, ◌*◌, ◌≤◌, length};
ghost use Rattle.text_hex.specs.Added.{Room, Added};
ghost use Rattle.text_hex.specs.Appended.{Appended};
ghost use Rattle.explain_bus.specs.Line.{signs_text, sequence_text};

use super::line::{push_run, push_sign};
use bus::Sign;
use text_hex::text::Text;

// How many entries a sequence may have.
pub const MOST: usize = 32768;

// The signs that a log makes, of which there are at most so many.
#[derive(Clone, Copy)]
pub struct Sequence<'a> {
    pub signs: &'a [Sign],
    pub ghost few: { length signs.now ≤ 32768 },
}

impl<'a> Sequence<'a> {
    ghost use Rattle.explain_bus.specs.Inner.Whole.{whole, signs_in};

    // That of a log, put into the places lent for it. `None` where the log makes too many, or not all of
    // those that it may make have a place. `log` and `places` stay two parameters: one is read, one
    // written.
    pub fn of(log: &[u32], places: &'a mut [Sign]) -> Option<Sequence<'a>>
        ensures { signs_in result ≡ whole log.now (length places.old) }
    {
        let count = bus::bus_sequence(log, places);
        if count > MOST || places.len() < MOST {
            return None;
        }
        Some(Sequence {
            signs: &places[..count],
        })
    }
}

impl Sequence<'_> {
    fn push_signs(self, text: &mut Text)
        requires { Room (9 * length self.signs.now) text.old }
        ensures { Added text.old (signs_text 0 self.entry.signs.now)
            (9 * length self.entry.signs.now) text.new }
    {
        let mut run: u32 = 0;
        for &sign in self.signs {
            match sign {
                Sign::ReadSlot => run += 1,
                _ => {
                    push_run(text, run);
                    push_sign(text, sign);
                    run = 0;
                }
            }
        }
        push_run(text, run);
    }

    #[tactic(auto, using(text_hex::proofs::Adding::no_text), unfolding(crate::specs::Line::sequence_text))]
    fn push(self, text: &mut Text)
        requires { Room 294921 text.old }
        ensures { Added text.old (sequence_text self.entry.signs.now) 294921 text.new }
    {
        if self.signs.is_empty() {
            return;
        }
        text.push_text(b"bus");
        self.push_signs(text);
        text.push(b'\n');
    }

    // The whole text, from the start of a buffer on. Says where it ends.
    pub fn put(self, out: &mut [u8]) -> usize
        requires { 294921 ≤ length out.old }
        ensures { Appended out.old 0 (sequence_text self.entry.signs.now) 294921 out.new result }
    {
        let mut text = Text::new(out, 0);
        self.push(&mut text);
        text.at
    }
}
