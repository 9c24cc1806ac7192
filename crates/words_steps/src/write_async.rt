// fn write_async_internal on words.
ghost use Rattle.std.specs.Prelude.{◌≡◌, get_or};
ghost use Rattle.words_steps.specs.Inner.InPlace.{At, InPlace};
ghost use Rattle.words_steps.specs.declared.Reached.TheVariants.{Free, Fill};

use super::Reached;
use regs::fields::level_of;
use words::{COUNT, GROUP, INDEX, KIND, LEN, ROW, half, sized};

// From `Free` to so many places to fill, or to a look for an abort where none is free.
fn free(words: &mut [u64; 20], v: u32) -> Option<Reached>
    requires { At words.old Free }
    ensures { InPlace words.old v result words.new }
{
    sized(words);
    let level = level_of(v);
    if 16 < level {
        return None;
    }
    if level == 16 {
        words[GROUP] = 1;
        words[KIND] = 3;
        return Some(Reached::Source);
    }
    if words[INDEX] % 65536 < words[LEN] % 65536 {
        words[ROW] = 1;
        words[COUNT] = (16 - level) as u64;
        return Some(Reached::Fill);
    }
    None
}

// A byte was sent: the next place is filled, or a look for an abort follows.
fn filled(words: &mut [u64; 20], v: u32) -> Option<Reached>
    requires { At words.old Fill }
    ensures { InPlace words.old v result words.new }
{
    sized(words);
    let next = words[INDEX] % 65536 + 1;
    let len = words[LEN] % 65536;
    if len < next {
        return None;
    }
    let left = half(words[COUNT]).saturating_sub(1);
    if left == 0 {
        words[GROUP] = 1;
        words[ROW] = 0;
        words[KIND] = 3;
        words[INDEX] = next;
        return Some(Reached::Source);
    }
    if next < len {
        words[INDEX] = next;
        words[COUNT] = left as u64;
        return Some(Reached::Fill);
    }
    None
}

// At `Full` a free place leads to `Free`.
pub fn step(words: &mut [u64; 20], v: u32) -> Option<Reached>
    requires { get_or words.old 0 0 ≡ 5 }
    ensures { InPlace words.old v result words.new }
{
    sized(words);
    match words[ROW] {
        0 => free(words, v),
        1 => filled(words, v),
        2 => {
            if level_of(v) < 16 {
                words[ROW] = 0;
                Some(Reached::Free)
            } else {
                None
            }
        }
        _ => None,
    }
}
