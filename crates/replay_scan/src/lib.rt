// A step inside a line: a run of its bytes, or one byte. No call is run here.
#![tactic(auto)]

pub mod bytes; // a run of bytes inside a line
pub mod ahead; // whole lines of a chunk

ghost use Rattle.std.specs.Prelude.{[], ◌∷◌, ◌<◌, ◌≤◌, length, get_or, drop};
ghost use Rattle.text_hex.specs.Added.{Room};
ghost use Rattle.replay_calls.specs.Inner.Runs.{MOST_TEXT};
ghost use Rattle.replay_state.specs.Inner.Rest.{PartSound, SameReader, Sound, reader_of};
ghost use Rattle.replay_scan.specs.Inner.Inside.{NoCall, NoEnd, WentBeside, WentInside};
ghost use Rattle.replay_scan.specs.Inner.StepsOn.{StepsOn};

use bytes::run;
use replay_state::{Part, Reader};

// A byte that is no LF.
fn one(reader: &mut Reader, x: u8)
    requires no_end { NoEnd x }
    requires room { Room MOST_TEXT reader.old.work.text }
    ensures same { SameReader reader.old reader.new }
    ensures went { WentInside reader.old (x ∷ []) reader.new }
    ensures beside { WentBeside reader.old (x ∷ []) reader.new [] }
    ensures no_call { NoCall reader.old reader.new }
{
    let state = reader.state;
    match state.part {
        Part::Stopped => {}
        Part::Text(n) => {
            reader.state = state.keep(x, n, reader.text, &mut reader.work.text);
        }
        Part::Long(odd) => {
            reader.state = state.skip(x, odd, &mut reader.work.text);
        }
    }
}

// A run of bytes, where the chunk begins with one, or else a byte that is no LF. How many bytes were read.
pub fn some(reader: &mut Reader, chunk: &[u8]) -> usize
    requires inside { 0 < length chunk.now }
    requires no_end { NoEnd (get_or chunk.now 0 0) }
    requires part { PartSound reader.old.state.part reader.old.text.now }
    requires room { Room MOST_TEXT reader.old.work.text }
    ensures same { SameReader reader.old reader.new }
    ensures steps { Sound (reader_of reader.old) → StepsOn reader.old chunk.now reader.new result }
    ensures beside { WentBeside reader.old chunk.now reader.new (drop result chunk.now) }
    ensures no_call { NoCall reader.old reader.new }
    ensures used { (0 < result) × (result ≤ length chunk.now) }
{
    let used = run(&mut reader.state.part, chunk, reader.text);
    if 0 < used {
        return used;
    }
    one(reader, chunk[0]);
    1
}
