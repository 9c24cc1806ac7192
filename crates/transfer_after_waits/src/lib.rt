// Where a reading leads in the waits: `wait_on`, and `wait_stop_det` with what it returns.
#![tactic(auto)]

ghost use Rattle.std.specs.Prelude.{◌≡◌};
ghost use Rattle.transfer.specs.Inner.Machine.{wait_stop, stop_returned, mask_for, poll_point};
ghost use Rattle.transfer.specs.Inner.Machine.{step_wait};
ghost use Rattle.transfer.specs.Inner.Machine.{step_stop};

use regs::answers::Refusal;
use regs::fields::{
    has_stop_det, with_m_rx_full, with_m_stop_det, with_m_tx_abrt, with_m_tx_empty,
};
use transfer::{AbortPoint, Caller, Point, Poll, RoundPoint, Step, StopPoint, Tried, WaitPoint};

// `wait_stop_det`: an abort or a wanted STOP is waited for.
#[tactic(auto, unfolding(transfer::specs::Inner::Machine::wait_stop))]
pub fn wait_for_stop(send_stop: bool, had: Tried) -> Option<Point>
    ensures { wait_stop send_stop had ≡ Ok result }
{
    if had.is_err() || send_stop {
        Some(Point::Abort(AbortPoint::Source, Caller::Stop(had)))
    } else {
        None
    }
}

// What was known before the wait for STOP, and what a look for an abort in it found: the first abort wins.
#[tactic(auto, unfolding(transfer::specs::Inner::Machine::stop_returned))]
pub fn stop_polled(had: Tried, abort: Tried) -> Point
    ensures { stop_returned had abort ≡ Ok (Some result) }
{
    match (had, abort) {
        (Ok(()), Err(_)) => Point::Stop(StopPoint::Clear(abort)),
        (Ok(()), Ok(())) => Point::Stop(StopPoint::Stat(had)),
        (Err(_), _) => Point::Stop(StopPoint::Stat(had)),
    }
}

// The interrupts that a wait sets.
#[tactic(auto, unfolding(transfer::specs::Inner::Machine::mask_for))]
fn mask(poll: Poll, w: u32) -> u32
    ensures { result ≡ mask_for poll w }
{
    with_m_tx_abrt(match poll {
        Poll::Batch(_) => with_m_rx_full(w),
        Poll::Space(_) => with_m_tx_empty(w),
        Poll::Stop(_) => with_m_stop_det(w),
    })
}

// The first access of a poll.
#[tactic(auto, unfolding(transfer::specs::Inner::Machine::poll_point))]
fn polled(poll: Poll) -> Point
    ensures { result ≡ poll_point poll }
{
    match poll {
        Poll::Batch(round) => Point::ReadAsync(RoundPoint::Level(round)),
        Poll::Space(i) => Point::Abort(AbortPoint::Source, Caller::Space(i)),
        Poll::Stop(had) => Point::Abort(AbortPoint::Source, Caller::Stop(had)),
    }
}

#[tactic(auto, unfolding(transfer::specs::Inner::Machine::step_wait))]
pub fn after_wait(p: WaitPoint, v: u32) -> Point
    ensures { step_wait p v ≡ Ok (Some result) }
{
    match p {
        WaitPoint::RxTl(round) => Point::Wait(WaitPoint::Mask(Poll::Batch(round))),
        WaitPoint::TxTl(i) => Point::Wait(WaitPoint::Mask(Poll::Space(i))),
        WaitPoint::Mask(poll) => Point::Wait(WaitPoint::SetMask(poll, mask(poll, v))),
        WaitPoint::SetMask(poll, _) => Point::Wait(WaitPoint::Pending(poll)),
        WaitPoint::Pending(poll) => polled(poll),
    }
}

// Once STOP_DET is cleared, `r?` follows in the Rust.
#[tactic(auto, unfolding(transfer::specs::Inner::Machine::step_stop, transfer::specs::Inner::Machine::try_step))]
pub fn after_stop(p: StopPoint, v: u32) -> Step
    ensures { result ≡ step_stop p v }
{
    match p {
        StopPoint::Stat(had) => {
            if has_stop_det(v) {
                Ok(Some(Point::Stop(StopPoint::Clear(had))))
            } else {
                Ok(Some(Point::Wait(WaitPoint::Mask(Poll::Stop(had)))))
            }
        }
        StopPoint::Clear(r) => {
            r.map_err(Refusal::Abort)?;
            Ok(None)
        }
    }
}
