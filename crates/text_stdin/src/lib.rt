// Standard input in whole lines. Bytes are read in chunks of any size; a line is handed out in a
// lent buffer.
#![tactic(auto)]

pub mod reads; // single reads
pub mod report; // what is said where reading or writing failed

ghost use Rattle.std.specs.Prelude.{◌≡◌, ◌≤◌, length};
ghost use Rattle.std.proofs.Math.Seq.{slice};
ghost use Rattle.text_stdin.specs.Handed.{Within, counted, Took, HandedOut, stands, is_line, held_if};
ghost use Rattle.text_stdin.specs.declared.reads.End.TheVariants.{Open};

use reads::{End, read_some};

// What was read and not handed out yet stands in the chunk from `at` up to
// `filled`. So many lines were handed out, and how the input stands. The two stay numbers beside the chunk: a
// Source is copied from line to line, and one that lends the chunk could not be.
#[derive(Clone, Copy, PartialEq, Eq)]
pub struct Source {
    pub at: usize,
    pub filled: usize,
    pub lines: u64,
    pub end: End,
}

// What is left behind a line, how many bytes of the buffer are filled, and the same as the length
// of the line, if there was one: `filled` also counts what came of a line whose rest did not come. They stay
// numbers: the line's buffer is the caller's, and is filled again by the next call.
// A line's number is the source's count of lines.
#[derive(Clone, Copy, PartialEq, Eq)]
pub struct Line {
    pub source: Source,
    pub filled: usize,
    pub held: Option<usize>,
}

// How far a chunk was read, how much of the buffer is filled, and whether the line has ended. `ended` stays a
// bool and this is no Option of the others, which hold also where the line goes on; they are numbers as those of
// the Source that `next_line` makes of them, which takes these two over and counts the line itself.
#[derive(Clone, Copy, PartialEq, Eq)]
struct Part {
    at: usize,
    filled: usize,
    held: usize,
    ended: bool,
}

// Before the first read.
pub fn start() -> Source
    ensures { (result.at ≡ 0)
        × (result.filled ≡ 0)
        × (result.lines ≡ 0)
        × (result.end ≡ Open) }
{
    Source {
        at: 0,
        filled: 0,
        lines: 0,
        end: End::Open,
    }
}

// Copies what stands in the chunk up to LF behind the `held` bytes of the line. What is past the buffer's end is
// dropped. at, filled and held stay beside their buffers: what is left is told by its place in the chunk, which a
// slice would count anew, and the bytes before `held` are a part of the line that came before.
fn take(chunk: &[u8], at: usize, filled: usize, held: usize, line: &mut [u8]) -> Part
    requires { (at ≤ filled)
        × (filled ≤ length chunk.now)
        × (held ≤ length line.old) }
    ensures { Took
        (slice at filled chunk.now)
        held line.old chunk.now line.new result }
{
    let mut n = held;
    for i in at..filled {
        let c = chunk[i];
        if c == b'\n' {
            return Part {
                at: i + 1,
                filled,
                held: n,
                ended: true,
            };
        }
        if line.len() <= n {
            continue;
        }
        line[n] = c;
        n += 1;
    }
    Part {
        at: filled,
        filled,
        held: n,
        ended: false,
    }
}

// How the input stands behind a line, or where there is none.
fn end_after(ended: bool, end: End) -> End
    ensures { result ≡ stands ended end }
{
    match end {
        End::Open if !ended => End::OutOfTurns,
        _ => end,
    }
}

// Whether there is a line: one that LF ended, or a last one with any bytes that the input's end ended.
fn is_some(ended: bool, end: End, held: usize) -> bool
    ensures { result ≡ is_line ended end held }
{
    ended || end == End::Ended && held > 0
}

// The line of so many bytes, if it is one.
fn held_if(some: bool, held: usize) -> Option<usize>
    ensures { result ≡ held_if some held }
{
    some.then_some(held)
}

// The next line, without its LF. A last line may lack it; behind an LF that is the last byte there is
// no further line. Of a line that a failed read cut nothing is handed out.
pub fn next_line(rt: HostRuntime, from: Source, chunk: &mut [u8], line: &mut [u8]) -> Line
    requires { Within from chunk.old }
    ensures { HandedOut from chunk.old chunk.new line.new result }
{
    let mut part = take(chunk, from.at, from.filled, 0, line);
    let mut end = from.end;
    // A proved loop ends, so it counts the reads up to a number that no run reaches.
    for _ in 0..u64::MAX {
        if part.ended || end != End::Open {
            break;
        }
        let got = read_some(rt, chunk);
        end = got.end;
        part = take(chunk, 0, got.count, part.held, line);
    }
    let some = is_some(part.ended, end, part.held);
    let source = Source {
        at: part.at,
        filled: part.filled,
        lines: from.lines.saturating_add(u64::from(some)),
        end: end_after(part.ended, end),
    };
    Line {
        source,
        filled: part.held,
        held: held_if(some, part.held),
    }
}
