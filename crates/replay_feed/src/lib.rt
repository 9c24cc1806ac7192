// The replay's reader: bytes in chunks of any size, calls
// run in order, answers out, in lent slices of fixed size.
#![tactic(auto)]

ghost use Rattle.std.specs.Prelude.{◌≡◌, ◌+◌, ◌<◌, ◌≤◌, length};
ghost use Rattle.text_hex.specs.Added.{Room};
ghost use Rattle.replay_calls.specs.Inner.Runs.{MOST_TEXT};
ghost use Rattle.replay_state.specs.Inner.Rest.{SameReader, Sound, reader_of};
ghost use Rattle.replay_scan.specs.Inner.StepsOn.{StepsOn};
ghost use Rattle.replay_state.specs.Inner.Fed.{FedAs, Finished};

use replay_scan_readings::{READING_LINE, run_readings};
use replay_state::Reader;
use replay_step::{line_feed, line_or_bytes};

// A run of readings, where the chunk begins with one, or else a line or some bytes. How many bytes
// were read.
// `chunk` stays beside the reader, since it is another part of the input at each step. That it has a byte,
// and the text its room, stay clauses: each step takes of both, and the loop of `feed` looks at them.
fn step(reader: &mut Reader, chunk: &[u8]) -> usize
    requires sound { Sound (reader_of reader.old) }
    requires room { Room MOST_TEXT reader.old.work.text }
    requires inside { 0 < length chunk.now }
    ensures same { SameReader reader.old reader.new }
    ensures steps { StepsOn reader.old chunk.now reader.new result }
{
    let mut state = reader.state;
    let n = run_readings(&mut state, chunk, reader.lists.readings);
    if 0 < n {
        reader.state = state;
        return n * READING_LINE;
    }
    line_or_bytes(reader, chunk)
}

// Reads of the chunk what the text has room for, from its begin on: each step is taken with room for
// the largest answer. How many bytes were read.
pub fn feed(reader: &mut Reader, chunk: &[u8]) -> usize
    requires sound { Sound (reader_of reader.old) }
    requires room { MOST_TEXT ≤ length reader.old.work.text.out.now }
    ensures same { SameReader reader.old reader.new }
    ensures fed { FedAs
        (reader_of reader.old)
        chunk.now
        (reader_of reader.new)
        reader.new.work.text.out.now result reader.new.work.text.at }
{
    reader.work.text.at = 0;
    let mut used: usize = 0;
    // The count stays one by hand: each step says how many bytes it has read.
    while used < chunk.len() {
        if reader.state.is_stopped() {
            return chunk.len();
        }
        if reader.work.text.out.len() - reader.work.text.at < replay_calls::MOST_TEXT {
            return used;
        }
        used += step(reader, &chunk[used..]);
    }
    used
}

// The end of the input. A last line without LF ends as if it had one.
pub fn finish(reader: &mut Reader)
    requires sound { Sound (reader_of reader.old) }
    requires room { MOST_TEXT + 13 ≤ length reader.old.work.text.out.now }
    ensures same { SameReader reader.old reader.new }
    ensures finished { Finished
        (reader_of reader.old)
        reader.new.work.text.out.now reader.new.work.text.at }
    ensures kept { reader.new.text.now ≡ reader.old.text.now }
{
    reader.work.text.at = 0;
    if reader.state.is_begun() {
        line_feed(reader);
    }
    reader.state.end_input(&mut reader.work.text);
}
