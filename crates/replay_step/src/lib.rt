// A step of the reader through a chunk: a line, or some bytes of one.
#![tactic(auto)]

ghost use Rattle.std.specs.Prelude.{◌≡◌, false, [], ◌∷◌, ◌+◌, ◌<◌, ◌≤◌, length};
ghost use Rattle.text_hex.specs.Added.{Room};
ghost use Rattle.replay_calls.specs.Inner.Runs.{MOST_TEXT};
ghost use Rattle.replay_state.specs.Inner.Rest.{SameReader, Sound, Went, begun_of, reader_of};
ghost use Rattle.replay_scan.specs.Inner.StepsOn.{StepsOn};

use replay_enter::enter_line;
use replay_scan::ahead::fresh_line;
use replay_scan::some;
use replay_state::turns::end_line;
use replay_state::{Part, Reader};

// An LF: it enters the line that it ends.
pub fn line_feed(reader: &mut Reader)
    requires sound { Sound (reader_of reader.old) }
    requires room { Room MOST_TEXT reader.old.work.text }
    ensures same { SameReader reader.old reader.new }
    ensures went { Went
        (reader_of reader.old) reader.old.work.text (10 ∷ [])
        (reader_of reader.new) reader.new.work.text []
        × (reader.new.work.text.at ≤ reader.old.work.text.at + MOST_TEXT)
        × (begun_of reader.new.state.part ≡ false) }
    ensures kept { reader.new.text.now ≡ reader.old.text.now }
{
    let s = reader.state;
    match s.part {
        Part::Stopped => {}
        Part::Text(n) => {
            let line = &reader.text[..n];
            let entered = enter_line(line, s.session, &mut reader.lists, &mut reader.work);
            reader.state = end_line(s.line, entered, &mut reader.work.text);
        }
        Part::Long(odd) => {
            reader.state = s.end_long(odd, reader.text, &mut reader.work.text);
        }
    }
}

// The end of a line that began before the chunk, or else some bytes. How many bytes were read.
fn end_or_bytes(reader: &mut Reader, chunk: &[u8]) -> usize
    requires sound { Sound (reader_of reader.old) }
    requires room { Room MOST_TEXT reader.old.work.text }
    requires inside { 0 < length chunk.now }
    ensures same { SameReader reader.old reader.new }
    ensures steps { StepsOn reader.old chunk.now reader.new result }
{
    if chunk[0] == b'\n' {
        line_feed(reader);
        return 1;
    }
    some(reader, chunk)
}

// A whole line of the chunk, where it begins with one, or else the end of a line or some bytes.
// How many bytes were read.
pub fn line_or_bytes(reader: &mut Reader, chunk: &[u8]) -> usize
    requires sound { Sound (reader_of reader.old) }
    requires room { Room MOST_TEXT reader.old.work.text }
    requires inside { 0 < length chunk.now }
    ensures same { SameReader reader.old reader.new }
    ensures steps { StepsOn reader.old chunk.now reader.new result }
{
    let s = reader.state;
    let Some(n) = fresh_line(s.part, chunk) else {
        return end_or_bytes(reader, chunk);
    };
    let entered = enter_line(&chunk[..n], s.session, &mut reader.lists, &mut reader.work);
    reader.state = end_line(s.line, entered, &mut reader.work.text);
    n + 1
}
