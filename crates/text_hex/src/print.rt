// An answer as text by a buffer and a place, for those who hold no text but an answer alone.
ghost use Rattle.std.specs.Prelude.{◌+◌, ◌≤◌, length};
ghost use Rattle.text_hex.specs.Print.{answer_text};
ghost use Rattle.text_hex.specs.Appended.{Appended};

use super::text::Text;

// An answer's number and its detail, at `at` of a lent buffer. Says where the text ends. Buffer and place stay
// two parameters, and the number a number: the replay holds no text here, and prints 21, which is no Reply's.
pub fn push_answer(out: &mut [u8], at: usize, number: u32, detail: u32) -> usize
    requires { at + 13 ≤ length out.old }
    ensures { Appended out.old at (answer_text number detail) 13 out.new result }
{
    let mut text = Text::new(out, at);
    text.push_answer(number, detail);
    text.at
}
