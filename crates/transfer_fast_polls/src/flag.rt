// `write_blocking_internal`: RAW_INTR_STAT is read until TX_EMPTY is set, or STOP_DET.
ghost use Rattle.std.specs.Prelude.{◌≡◌};
ghost use Rattle.transfer.specs.declared.Point.{Point};
ghost use Rattle.transfer_fast_blocking.specs.Inner.Bursts.{ForAny};
ghost use Rattle.transfer_fast_polls.specs.Inner.Stays.{Stays, flag_set, AwaitsFlag};

use counts::least;
use regs::access::Recording;
use regs::fields::{has_stop_det, has_tx_empty};
use transfer_fast_blocking::{left, room};

// The flag that is awaited.
#[derive(Clone, Copy)]
pub enum Flag {
    TxEmpty,
    StopDet,
}

impl Flag {
    fn is_set(self, stat: u32) -> bool
        ensures { result ≡ flag_set self stat }
    {
        match self {
            Flag::TxEmpty => has_tx_empty(stat),
            Flag::StopDet => has_stop_det(stat),
        }
    }
}

// The readings until one has the flag. How many readings and log allow is counted once: tests of both
// at each took longer than the poll itself.
pub fn polls(flag: Flag, recording: &mut Recording)
    ensures { ForAny
        (λ (p : Point). AwaitsFlag flag p → Stays p recording.old recording.new) }
{
    for _ in 0..least(left(recording), room(recording)) {
        let stat = recording.readings[recording.used];
        if flag.is_set(stat) {
            break;
        }
        recording.put_read(regs::RAW_INTR_STAT, stat);
        recording.used += 1;
    }
}
