// Lines of answers in order: the number of a line, whether it is an answer frame, the
// text of one that is none, and the log that is kept of the open call.
#![tactic(auto)]

pub mod log; // the log

ghost use Rattle.std.specs.Prelude.{◌≡◌, ◌≤◌, length};
ghost use Rattle.text_hex.specs.Added.{Room, Added};
ghost use Rattle.text_hex.specs.Appended.{Appended};
ghost use Rattle.answer_lines.specs.Lines.{number_after, no_frame, warning};

use answer_frames::frame_in;
use text_hex::text::Text;
use text_tables::decimal::push_digits;

// The number of the line behind so many others. The library's addition stays in a function of this name: the
// definitions count lines by `number_after`, and here it is proved once that they are the same.
pub fn number_after(lines: u64) -> u64
    ensures { result ≡ number_after lines }
{
    lines.saturating_add(1)
}

// Whether a line is no answer frame.
pub fn no_frame(line: &[u8]) -> bool
    ensures { result ≡ no_frame line.now }
{
    line.len() > explain_frames::LONGEST || frame_in(line).is_none()
}

// The room that is needed stays a requirement, here and below: it is another number for each text, and a
// text without that room is a text as well.
fn warn(text: &mut Text, number: u64)
    requires { Room 47 text.old }
    ensures { Added text.old (warning number) 47 text.new }
{
    text.push_text(b"line ");
    push_digits(text, 20, number);
    text.push_text(b": not an answer frame\n");
}

// The text of a line that is no answer frame, at the start of a lent buffer. Says where it ends. Its room stays
// a requirement, as above: an array would ask callers for a buffer of exactly that size.
pub fn push_warning(out: &mut [u8], number: u64) -> usize
    requires { 47 ≤ length out.old }
    ensures { Appended out.old 0 (warning number) 47 out.new result }
{
    let mut text = Text::new(out, 0);
    warn(&mut text, number);
    text.at
}
