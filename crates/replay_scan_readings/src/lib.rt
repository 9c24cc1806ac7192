// Runs of readings. Most lines of a recording are readings of the open call:
// they are read in one loop, and the reader's state is made once behind them.
#![tactic(auto)]

ghost use Rattle.std.specs.Prelude.{◌≡◌, ◌+◌, ◌<◌, ◌≤◌, length};
ghost use Rattle.replay_scan_readings.specs.Inner.Run.{DigitValues, marked, PairAt, WordAt, WrittenIf};
ghost use Rattle.replay_scan_readings.specs.Inner.Run.{Run, RanAs, ready_of, reopened, state_after};

use replay_session::{Counts, Open, Session, Wants, counts_of};
use replay_state::{Part, State};

// The bytes of a reading's line: `20`, 8 digits, and its LF.
pub const READING_LINE: usize = 11;

// Two bytes by a table of digit values.
#[derive(Clone, Copy)]
struct Pair {
    sum: u64,
    value: u64,
}

// The value of each byte as a digit, and 128 for a byte that is none. The table is lent for a
// whole run: a constant is stored anew wherever it is used.
#[derive(Drop)]
struct Digits<'a> {
    values: &'a [u8],
    ghost of_bytes: { DigitValues values.now },
}

impl<'a> Digits<'a> {
    fn value(&self, c: u8) -> u64
        ensures { (result ≡ marked c)
            × (result ≤ 128) }
    {
        let at = c as usize;
        self.values[at] as u64
    }

    // `at` stays a number beside the chunk: it is a constant place in the one line that is looked at.
    // Two bytes from `at` on: their sum, and the number that they write.
    fn pair(&self, chunk: &[u8], at: usize) -> Pair
        requires { at + 2 ≤ length chunk.now }
        ensures { PairAt chunk.now at result }
    {
        let high = self.value(chunk[at]);
        let low = self.value(chunk[at + 1]);
        Pair {
            sum: high + low,
            value: high * 16 + low,
        }
    }

    // The number in 8 bytes from `at` on, if they are digits: 8 digits make less than 128 together.
    fn word(&self, chunk: &[u8], at: usize) -> Option<u32>
        requires { at + 8 ≤ length chunk.now }
        ensures { WordAt chunk.now at result }
    {
        let a = self.pair(chunk, at);
        let b = self.pair(chunk, at + 2);
        let c = self.pair(chunk, at + 4);
        let d = self.pair(chunk, at + 6);
        let high = a.value * 256 + b.value;
        let low = c.value * 256 + d.value;
        if a.sum + b.sum + (c.sum + d.sum) < 128 {
            return Some((high * 65536 + low) as u32);
        }
        None
    }

    // The word of the reading that the chunk begins with, if it does.
    fn reading(&self, chunk: &[u8]) -> Option<u32>
        ensures { WrittenIf chunk.now result }
    {
        if chunk.len() < READING_LINE {
            return None;
        }
        if chunk[0] == b'2' && chunk[1] == b'0' && chunk[10] == b'\n' {
            return self.word(chunk, 2);
        }
        None
    }

    // `chunk` and `readings` stay two parameters: one is what came, the other the call's, and both shrink.
    // Reads the readings that the chunk begins with, as many as there are places for. How many they are.
    fn run(&self, chunk: &[u8], readings: &mut [u32]) -> usize
        ensures { Run chunk.now readings.old result readings.new }
    {
        for n in 0..readings.len() {
            let Some(word) = self.reading(&chunk[n * READING_LINE..]) else {
                return n;
            };
            readings[n] = word;
        }
        readings.len()
    }
}

// The same, with the table.
fn run(chunk: &[u8], readings: &mut [u32]) -> usize
    ensures { Run chunk.now readings.old result readings.new }
{
    let digits = Digits {
        values: b"\x80\x80\x80\x80\x80\x80\x80\x80\x80\x80\x80\x80\x80\x80\x80\x80\
          \x80\x80\x80\x80\x80\x80\x80\x80\x80\x80\x80\x80\x80\x80\x80\x80\
          \x80\x80\x80\x80\x80\x80\x80\x80\x80\x80\x80\x80\x80\x80\x80\x80\
          \x00\x01\x02\x03\x04\x05\x06\x07\x08\x09\x80\x80\x80\x80\x80\x80\
          \x80\x0A\x0B\x0C\x0D\x0E\x0F\x80\x80\x80\x80\x80\x80\x80\x80\x80\
          \x80\x80\x80\x80\x80\x80\x80\x80\x80\x80\x80\x80\x80\x80\x80\x80\
          \x80\x80\x80\x80\x80\x80\x80\x80\x80\x80\x80\x80\x80\x80\x80\x80\
          \x80\x80\x80\x80\x80\x80\x80\x80\x80\x80\x80\x80\x80\x80\x80\x80\
          \x80\x80\x80\x80\x80\x80\x80\x80\x80\x80\x80\x80\x80\x80\x80\x80\
          \x80\x80\x80\x80\x80\x80\x80\x80\x80\x80\x80\x80\x80\x80\x80\x80\
          \x80\x80\x80\x80\x80\x80\x80\x80\x80\x80\x80\x80\x80\x80\x80\x80\
          \x80\x80\x80\x80\x80\x80\x80\x80\x80\x80\x80\x80\x80\x80\x80\x80\
          \x80\x80\x80\x80\x80\x80\x80\x80\x80\x80\x80\x80\x80\x80\x80\x80\
          \x80\x80\x80\x80\x80\x80\x80\x80\x80\x80\x80\x80\x80\x80\x80\x80\
          \x80\x80\x80\x80\x80\x80\x80\x80\x80\x80\x80\x80\x80\x80\x80\x80\
          \x80\x80\x80\x80\x80\x80\x80\x80\x80\x80\x80\x80\x80\x80\x80\x80",
    };
    digits.run(chunk, readings)
}

// Whether a line begins and may be a reading.
fn is_ready(s: State) -> bool
    ensures { result ≡ ready_of s }
{
    match (s.part, s.session.call) {
        (Part::Text(0), Some(o)) => o.wants.is_complete(),
        _ => false,
    }
}

fn reopened(call: Option<Open>, count: usize) -> Option<Open>
    ensures { result ≡ reopened call count }
{
    let o = call?;
    Some(Open {
        wants: Wants::Nothing,
        counts: Counts {
            readings: count,
            ..o.counts
        },
        ..o
    })
}

// The reader behind n lines of readings, with which the call has `count`.
pub fn after_run(s: State, n: usize, count: usize) -> State
    ensures after { result ≡ state_after s n count }
    ensures in_range { s.line < 4294967296 }
{
    State {
        line: s.line.saturating_add(u32::try_from(n).unwrap_or(u32::MAX)),
        part: Part::Text(0),
        session: Session {
            call: reopened(s.session.call, count),
            ..s.session
        },
    }
}

// Reads the readings that the chunk begins with, behind those that the call has. How many they are.
// The count stays a number where the chunk begins with none: 0 readings are a count as any other.
pub fn run_readings(s: &mut State, chunk: &[u8], readings: &mut [u32]) -> usize
    ensures { RanAs s.old chunk.now readings.old s.new readings.new result }
{
    if !is_ready(*s) {
        return 0;
    }
    let first = counts_of(s.session.call).readings.min(readings.len());
    let n = run(chunk, &mut readings[first..]);
    if 0 < n {
        *s = after_run(*s, n, first + n);
    }
    n
}
