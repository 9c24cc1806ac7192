// Moves bytes: from standard input to the reader, and its answers to standard output.
ghost use Rattle.std.specs.Prelude.{◌≡◌, ◌+◌, ◌≤◌, length};
ghost use Rattle.replay_calls.specs.Inner.Runs.{LOG_WORDS, MOST_TEXT};
ghost use Rattle.replay_session.specs.Inner.Enter.{arrays_of, longest_kept, Lent};
ghost use Rattle.replay_state.specs.Inner.Rest.{SameReader, Sound, reader_of};
ghost use Rattle.replay.specs.Replayed.{FedAll, ReadAll, AtEnd};

use replay_state::{Reader, State};
use std::io::Print;
use text_stdin::reads::{End, read_some};

// A write of the answers has failed.
#[derive(Clone, Copy)]
pub struct Unwritten;

// Writes the text of the answers, and says whether that failed.
pub fn fails_to_write(rt: HostRuntime, reader: &Reader) -> bool
    requires { reader.now.work.text.at ≤ length reader.now.work.text.out.now }
{
    let made = reader.work.text.at;
    rt.stdout()
        .write_all(&reader.work.text.out[..made])
        .is_err()
}

// Feeds all bytes of a read, and writes the answers on the way. Says whether all were written.
fn feed_all(rt: HostRuntime, reader: &mut Reader, bytes: &[u8]) -> bool
    requires sound { Sound (reader_of reader.old) }
    requires room { MOST_TEXT ≤ length reader.old.work.text.out.now }
    ensures same { SameReader reader.old reader.new }
    ensures fed { FedAll (reader_of reader.old) bytes.now (reader_of reader.new) result }
{
    let mut left = bytes;
    // The loop stays a `while` over what is left: each call of `feed` says how much it has read.
    while !left.is_empty() {
        let used = replay_feed::feed(reader, left);
        left = &left[used..];
        if fails_to_write(rt, reader) {
            return false;
        }
    }
    true
}

// Reads to the end of the input, and writes answers on the way; a read or a write that fails ends it
// too. A proved loop ends, so it takes a number of turns that no run uses up.
pub fn read_all(rt: HostRuntime, chunk: &mut [u8], reader: &mut Reader) -> Result<End, Unwritten>
    requires text { length reader.old.text.now ≡ longest_kept }
    requires lent { Lent (arrays_of reader.old.lists) }
    requires buffer { length reader.old.work.buffer.now ≡ 4096 }
    requires log { length reader.old.work.log.now ≡ LOG_WORDS }
    requires room { MOST_TEXT + 13 ≤ length reader.old.work.text.out.now }
    ensures same { SameReader reader.old reader.new }
    ensures read { ReadAll (reader_of reader.new) result }
{
    reader.state = State::start();
    for turn in 0..u64::MAX {
        let got = read_some(rt, chunk);
        if got.count == 0 {
            return Ok(got.end);
        }
        if !feed_all(rt, reader, &chunk[..got.count]) {
            return Err(Unwritten);
        }
    }
    Ok(End::OutOfTurns)
}

// Puts what is printed at the end of the input; nothing where it has not ended.
pub fn at_end(end: End, reader: &mut Reader)
    requires sound { Sound (reader_of reader.old) }
    requires room { MOST_TEXT + 13 ≤ length reader.old.work.text.out.now }
    ensures same { SameReader reader.old reader.new }
    ensures printed { AtEnd end (reader_of reader.old)
        reader.new.work.text.out.now reader.new.work.text.at }
    ensures kept { reader.new.text.now ≡ reader.old.text.now }
{
    if end == End::Ended {
        replay_feed::finish(reader);
        return;
    }
    reader.work.text.at = 0;
}
