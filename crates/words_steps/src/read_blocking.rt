// fn read_blocking_internal on words.
ghost use Rattle.std.specs.Prelude.{◌≡◌, get_or};
ghost use Rattle.words_steps.specs.Inner.InPlace.{InPlace};

use super::Reached;
use regs::fields::level_of;
use words::{GROUP, INDEX, KIND, LEN, ROW, sized};

// From `Room` to `Ask` where a place is free, to `Level`, to `Take` where a
// byte is there, or to a look for an abort, to the next byte where one follows.
pub fn step(words: &mut [u64; 20], v: u32) -> Option<Reached>
    requires { get_or words.old 0 0 ≡ 2 }
    ensures { InPlace words.old v result words.new }
{
    sized(words);
    match words[ROW] {
        0 => {
            if level_of(v) < 16 {
                words[ROW] = 1;
                Some(Reached::Ask)
            } else {
                None
            }
        }
        1 => {
            words[ROW] = 2;
            Some(Reached::ReadLevel)
        }
        2 => {
            if level_of(v) == 0 {
                words[GROUP] = 1;
                words[ROW] = 0;
                words[KIND] = 0;
                Some(Reached::Source)
            } else {
                words[ROW] = 3;
                Some(Reached::Take)
            }
        }
        3 => {
            let next = words[INDEX] % 65536 + 1;
            if next < words[LEN] % 65536 {
                words[ROW] = 0;
                words[INDEX] = next;
                Some(Reached::Room)
            } else {
                None
            }
        }
        _ => None,
    }
}
