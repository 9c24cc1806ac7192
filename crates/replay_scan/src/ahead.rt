// Whole lines of a chunk, which are read where they stand.
ghost use Rattle.replay_state.specs.Inner.Rest.{AheadIf, FreshLine};

use replay_state::{LONGEST_KEPT, Part};

// How many bytes of the chunk are a whole line before its LF, unless
// they are more than are kept or the chunk ends before.
fn line_ahead(chunk: &[u8]) -> Option<usize>
    ensures { AheadIf chunk.now result }
{
    for n in 0..chunk.len().min(LONGEST_KEPT + 1) {
        if chunk[n] == b'\n' {
            return Some(n);
        }
    }
    None
}

// The same at a place in the input where a line begins.
pub fn fresh_line(p: Part, chunk: &[u8]) -> Option<usize>
    ensures { FreshLine p chunk.now result }
{
    match p {
        Part::Text(0) => line_ahead(chunk),
        _ => None,
    }
}
