// `wait_on` of the async forms: a poll that is not done sets
// INTR_MASK and makes its mark, and the next poll comes.
ghost use Rattle.std.specs.Prelude.{true, ◌≡◌, ℕ};
ghost use Rattle.regs_runs.specs.Inner.Puts.{Grows};
ghost use Rattle.transfer.specs.declared.Round.{Round};
ghost use Rattle.transfer.specs.declared.Point.TheVariants.{Abort, ReadAsync};
ghost use Rattle.transfer.specs.declared.RoundPoint.TheVariants.{Level};
ghost use Rattle.transfer.specs.declared.AbortPoint.TheVariants.{Source};
ghost use Rattle.transfer.specs.declared.Caller.TheVariants.{Space, Stop};
ghost use Rattle.transfer_fast_blocking.specs.Inner.Bursts.{ForAny};
ghost use Rattle.transfer_fast_polls.specs.Inner.Stays.{Stays, too_few, no_place, no_stop};

use regs::access::{Entry, Recording};
use regs::fields::{
    has_stop_det, level_of, with_m_rx_full, with_m_stop_det, with_m_tx_abrt, with_m_tx_empty,
};
use regs_runs::{has, poll};

// `filled` and `source` stay two words: they are the readings of two registers.
fn is_too_few(batch: u16, filled: u32, source: u32) -> bool
    ensures { result ≡ too_few batch filled source }
{
    (u16::from(level_of(filled)) < batch) & (source == 0)
}

// RXFLR has not reached the words of the round. The three waits stay three functions: each names its own
// registers, threshold and mask bit, and `regs_runs::poll` is what they share.
pub fn batch(batch: u16, recording: &mut Recording) -> bool
    ensures stays { ForAny
        (λ (x : Round). x.batch ≡ batch → Stays (ReadAsync (Level x)) recording.old
        recording.new) }
    ensures found_nothing { result ≡ true → Grows recording.old recording.new }
{
    if !has(recording, 3, 6) {
        return false;
    }
    let filled = recording.readings[recording.used];
    let source = recording.readings[recording.used + 1];
    let mask = recording.readings[recording.used + 2];
    let entries = [
        Entry::Read(regs::RXFLR, filled),
        Entry::Read(regs::TX_ABRT_SOURCE, source),
        Entry::Write(regs::RX_TL, u32::from(batch.saturating_sub(1))),
        Entry::Read(regs::INTR_MASK, mask),
        Entry::Write(regs::INTR_MASK, with_m_tx_abrt(with_m_rx_full(mask))),
        Entry::Marked(regs::PENDING),
    ];
    poll(recording, is_too_few(batch, filled, source), 3, &entries)
}

fn is_full(source: u32, filled: u32) -> bool
    ensures { result ≡ no_place source filled }
{
    (source == 0) & (level_of(filled) == 16)
}

// TXFLR has no place.
pub fn space(recording: &mut Recording) -> bool
    ensures stays { ForAny
        (λ (i : ℕ). Stays (Abort Source (Space i)) recording.old recording.new) }
    ensures found_nothing { result ≡ true → Grows recording.old recording.new }
{
    if !has(recording, 3, 6) {
        return false;
    }
    let source = recording.readings[recording.used];
    let filled = recording.readings[recording.used + 1];
    let mask = recording.readings[recording.used + 2];
    let entries = [
        Entry::Read(regs::TX_ABRT_SOURCE, source),
        Entry::Read(regs::TXFLR, filled),
        Entry::Write(regs::TX_TL, 1),
        Entry::Read(regs::INTR_MASK, mask),
        Entry::Write(regs::INTR_MASK, with_m_tx_abrt(with_m_tx_empty(mask))),
        Entry::Marked(regs::PENDING),
    ];
    poll(recording, is_full(source, filled), 3, &entries)
}

fn is_going(source: u32, stat: u32) -> bool
    ensures { result ≡ no_stop source stat }
{
    (source == 0) & !has_stop_det(stat)
}

// No STOP yet.
pub fn stop(recording: &mut Recording) -> bool
    ensures stays { Stays (Abort Source (Stop (Ok tt))) recording.old recording.new }
    ensures found_nothing { result ≡ true → Grows recording.old recording.new }
{
    if !has(recording, 3, 5) {
        return false;
    }
    let source = recording.readings[recording.used];
    let stat = recording.readings[recording.used + 1];
    let mask = recording.readings[recording.used + 2];
    let entries = [
        Entry::Read(regs::TX_ABRT_SOURCE, source),
        Entry::Read(regs::RAW_INTR_STAT, stat),
        Entry::Read(regs::INTR_MASK, mask),
        Entry::Write(regs::INTR_MASK, with_m_tx_abrt(with_m_stop_det(mask))),
        Entry::Marked(regs::PENDING),
    ];
    poll(recording, is_going(source, stat), 3, &entries)
}
