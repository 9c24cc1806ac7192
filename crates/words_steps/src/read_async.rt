// fn read_async_internal on words.
ghost use Rattle.std.specs.Prelude.{◌≡◌, get_or};
ghost use Rattle.words_steps.specs.Inner.InPlace.{At, InPlace};
ghost use Rattle.words_steps.specs.declared.Reached.TheVariants.{Capacity, Queued, Fetch};

use super::Reached;
use regs::fields::level_of;
use words::{BATCH, COUNT, GROUP, KIND, QUEUE, REMAINING, ROW, half, sized};

// From `Capacity` to so many words to queue, or to `Level`.
fn capacity(words: &mut [u64; 20], v: u32) -> Option<Reached>
    requires { At words.old Capacity }
    ensures { InPlace words.old v result words.new }
{
    sized(words);
    let level = level_of(v);
    if 16 < level {
        return None;
    }
    let n = half(words[QUEUE]).min((16 - level) as u16);
    if n == 0 {
        words[ROW] = 2;
        words[BATCH] = 0;
        return Some(Reached::Level);
    }
    words[ROW] = 1;
    words[COUNT] = n as u64;
    words[BATCH] = n as u64;
    Some(Reached::Queued)
}

// A word was queued.
fn queued(words: &mut [u64; 20], v: u32) -> Option<Reached>
    requires { At words.old Queued }
    ensures { InPlace words.old v result words.new }
{
    sized(words);
    let left = half(words[COUNT]).saturating_sub(1);
    words[QUEUE] = half(words[QUEUE]).saturating_sub(1) as u64;
    if left == 0 {
        words[ROW] = 2;
        return Some(Reached::Level);
    }
    words[COUNT] = left as u64;
    Some(Reached::Queued)
}

// A byte was fetched: the next one, or the next round where bytes remain.
fn fetched(words: &mut [u64; 20], v: u32) -> Option<Reached>
    requires { At words.old Fetch }
    ensures { InPlace words.old v result words.new }
{
    sized(words);
    let left = half(words[COUNT]).saturating_sub(1);
    if left != 0 {
        words[COUNT] = left as u64;
        return Some(Reached::Fetch);
    }
    if words[REMAINING] % 65536 == 0 {
        return None;
    }
    words[ROW] = 0;
    Some(Reached::Capacity)
}

// At `Level` a look for an abort follows, with the level.
pub fn step(words: &mut [u64; 20], v: u32) -> Option<Reached>
    requires { get_or words.old 0 0 ≡ 4 }
    ensures { InPlace words.old v result words.new }
{
    sized(words);
    match words[ROW] {
        0 => capacity(words, v),
        1 => queued(words, v),
        2 => {
            words[GROUP] = 1;
            words[ROW] = 0;
            words[KIND] = 2;
            words[COUNT] = level_of(v) as u64;
            Some(Reached::Source)
        }
        3 => fetched(words, v),
        _ => None,
    }
}
