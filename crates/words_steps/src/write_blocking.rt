// fn write_blocking_internal on words.
ghost use Rattle.std.specs.Prelude.{◌≡◌, get_or};
ghost use Rattle.words_steps.specs.Inner.InPlace.{InPlace};

use super::Reached;
use regs::fields::has_tx_empty;
use words::{GROUP, KIND, ROW, sized};

// From `Send` to `Empty`, and from there to a look for an abort where the FIFO is empty.
pub fn step(words: &mut [u64; 20], v: u32) -> Option<Reached>
    requires { get_or words.old 0 0 ≡ 3 }
    ensures { InPlace words.old v result words.new }
{
    sized(words);
    match words[ROW] {
        0 => {
            words[ROW] = 1;
            Some(Reached::Empty)
        }
        1 => {
            if has_tx_empty(v) {
                words[GROUP] = 1;
                words[ROW] = 0;
                words[KIND] = 1;
                Some(Reached::Source)
            } else {
                Some(Reached::Empty)
            }
        }
        _ => None,
    }
}
