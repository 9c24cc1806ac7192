// Polls that find nothing to do: INTR_MASK is set, and the next poll comes.
#![tactic(auto)]

ghost use Rattle.std.specs.Prelude.{◌≡◌};
ghost use Rattle.slave_fast_polls.specs.Inner.Idles.{Idles, idle_poll, Awaits, idle_listen};

use regs::access::Recording;
use regs::fields::{has_rd_req, has_rx_done, has_stop_det, has_tx_abrt, has_tx_empty, level_of};
use slave_fast_bytes::times;

fn is_idle(stat: u32) -> bool
    ensures { result ≡ idle_poll stat }
{
    !has_tx_abrt(stat) & (!has_rx_done(stat) & !(has_rd_req(stat) & has_tx_empty(stat)))
}

// Of a response whose bytes are all sent. This and `listen` stay two: each names its own registers. How many
// polls readings and log allow is counted once: tests of both at each poll took as long as the poll itself.
pub fn respond(recording: &mut Recording)
    ensures { Idles recording.old recording.new }
{
    for _ in 0..times(recording, 1, 3) {
        let stat = recording.readings[recording.used];
        if !is_idle(stat) {
            break;
        }
        recording.put_read(regs::RAW_INTR_STAT, stat);
        recording.put_write(regs::INTR_MASK, slave_respond::MASK);
        recording.put_mark(regs::PENDING);
        recording.used += 1;
    }
}

fn is_idle_listen(stat: u32, filled: u32) -> bool
    ensures { result ≡ idle_listen stat filled }
{
    !has_rd_req(stat) & (!has_stop_det(stat) & (level_of(filled) == 0))
}

// Of `listen`, with no byte pending.
pub fn listen(recording: &mut Recording)
    ensures { Awaits recording.old recording.new }
{
    for _ in 0..times(recording, 2, 4) {
        let stat = recording.readings[recording.used];
        let filled = recording.readings[recording.used + 1];
        if !is_idle_listen(stat, filled) {
            break;
        }
        recording.put_read(regs::RAW_INTR_STAT, stat);
        recording.put_read(regs::RXFLR, filled);
        recording.put_write(regs::INTR_MASK, slave_listen::MASK);
        recording.put_mark(regs::PENDING);
        recording.used += 2;
    }
}
