// `read_blocking_internal`: RXFLR has no byte yet, and TX_ABRT_SOURCE says that nothing was aborted.
ghost use Rattle.std.specs.Prelude.{◌≡◌, ℕ};
ghost use Rattle.transfer.specs.declared.Point.TheVariants.{ReadBlocking};
ghost use Rattle.transfer.specs.declared.ReadPoint.TheVariants.{Level};
ghost use Rattle.transfer_fast_blocking.specs.Inner.Bursts.{ForAny};
ghost use Rattle.transfer_fast_polls.specs.Inner.Stays.{Stays, no_byte};

use counts::least;
use regs::access::Recording;
use regs::fields::level_of;
use transfer_fast_blocking::{left, room};

// `filled` and `source` stay two words: they are the readings of two registers.
fn is_empty(filled: u32, source: u32) -> bool
    ensures { result ≡ no_byte filled source }
{
    (level_of(filled) == 0) & (source == 0)
}

// The polls until one finds something. They are counted once, as those for a flag.
pub fn polls(recording: &mut Recording)
    ensures { ForAny
        (λ (i : ℕ). Stays (ReadBlocking (Level i)) recording.old recording.new) }
{
    for _ in 0..least(left(recording) / 2, room(recording) / 2) {
        let filled = recording.readings[recording.used];
        let source = recording.readings[recording.used + 1];
        if !is_empty(filled, source) {
            break;
        }
        recording.put_read(regs::RXFLR, filled);
        recording.put_read(regs::TX_ABRT_SOURCE, source);
        recording.used += 2;
    }
}
