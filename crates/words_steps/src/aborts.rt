// fn read_and_clear_abort_reason on words, where no abort was read.
ghost use Rattle.std.specs.Prelude.{◌≡◌, get_or};
ghost use Rattle.words_steps.specs.Inner.InPlace.{At, InPlace};
ghost use Rattle.words_steps.specs.declared.Reached.TheVariants.{Source};

use super::Reached;
use words::{BATCH, COUNT, GROUP, INDEX, KIND, LEN, REMAINING, ROW, half, sized};

// A byte was written: to the next one, where one follows.
fn written(words: &mut [u64; 20], v: u32) -> Option<Reached>
    requires { (At words.old Source)
        × (get_or words.old 3 0 ≡ 1)
        × (v ≡ 0) }
    ensures { InPlace words.old v result words.new }
{
    sized(words);
    let next = words[INDEX] % 65536 + 1;
    if next < words[LEN] % 65536 {
        words[GROUP] = 3;
        words[INDEX] = next;
        return Some(Reached::Send);
    }
    None
}

// A batch arrived: its bytes are to be fetched.
fn arrived(words: &mut [u64; 20], v: u32) -> Option<Reached>
    requires { (At words.old Source)
        × (get_or words.old 3 0 ≡ 2)
        × (v ≡ 0) }
    ensures { InPlace words.old v result words.new }
{
    sized(words);
    let level = half(words[COUNT]);
    let remaining = half(words[REMAINING]);
    if level < half(words[BATCH]) {
        return None;
    }
    let n = level.min(remaining);
    if n == 0 {
        return None;
    }
    words[GROUP] = 4;
    words[ROW] = 3;
    words[COUNT] = n as u64;
    words[REMAINING] = (remaining - n) as u64;
    Some(Reached::Fetch)
}

// Back to who looked for an abort.
pub fn step(words: &mut [u64; 20], v: u32) -> Option<Reached>
    requires { get_or words.old 0 0 ≡ 1 }
    ensures { InPlace words.old v result words.new }
{
    sized(words);
    if words[ROW] != 0 {
        return None;
    }
    if v != 0 {
        return None;
    }
    match words[KIND] {
        0 => {
            words[GROUP] = 2;
            words[ROW] = 2;
            Some(Reached::ReadLevel)
        }
        1 => written(words, v),
        2 => arrived(words, v),
        3 => {
            words[GROUP] = 5;
            words[ROW] = 2;
            Some(Reached::Full)
        }
        _ => None,
    }
}
