// Runs of bytes inside a line. Of a line that does not stand whole in the chunk, or
// is longer than what is kept, as many bytes as go on with it are read in one loop.
ghost use Rattle.replay_state.specs.Inner.Rest.{PartSound};
ghost use Rattle.replay_scan.specs.Inner.Bytes.{DigitsAhead, KeptAhead, MovedAs};

use replay_state::{LONGEST_KEPT, Part};
use text_hex::digits::is_digit;

// How many bytes the chunk begins with that are digits.
fn digits_ahead(chunk: &[u8]) -> usize
    ensures { DigitsAhead chunk.now result }
{
    for k in 0..chunk.len() {
        if !is_digit(chunk[k]) {
            return k;
        }
    }
    chunk.len()
}

// Keeps bytes of the chunk in `room`: up to the end of the line, of the chunk, or of the room.
// How many they are.
fn keep_ahead(chunk: &[u8], room: &mut [u8]) -> usize
    ensures { KeptAhead chunk.now room.old room.new result }
{
    let most = chunk.len().min(room.len());
    for k in 0..most {
        if chunk[k] == b'\n' {
            return k;
        }
        room[k] = chunk[k];
    }
    most
}

// Reads the bytes of the chunk that go on with the line. How many they are.
// The count stays a number where none go on: 0 bytes are a count as any other.
pub fn run(part: &mut Part, chunk: &[u8], text: &mut [u8; LONGEST_KEPT]) -> usize
    requires { PartSound part.old text.old }
    ensures { MovedAs part.old chunk.now text.old part.new text.new result }
{
    match *part {
        Part::Stopped => 0,
        Part::Text(n) => {
            let k = keep_ahead(chunk, &mut text[n..]);
            *part = Part::Text(n + k);
            k
        }
        Part::Long(odd) => {
            let k = digits_ahead(chunk);
            if k % 2 == 0 {
                return k;
            }
            *part = Part::Long(!odd);
            k
        }
    }
}
