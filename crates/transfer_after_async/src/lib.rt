// Where a reading leads in the async reads and writes, which go by rounds over the FIFO's free places.
#![tactic(auto)]

ghost use Rattle.std.specs.Prelude.{◌≡◌, false};
ghost use Rattle.transfer.specs.Inner.Machine.{queued, next_turn, fetching, filling, returned};
ghost use Rattle.transfer.specs.Inner.Machine.{step_round, step_fill};

use regs::fields::level_of;
use transfer::counts::capacity_of;
use transfer::{
    AbortPoint, Caller, FillPoint, Operation, Point, Round, RoundPoint, Step, WaitPoint,
};
use transfer_after_waits::wait_for_stop;

// An async read: so many words are to be queued in this round.
#[tactic(auto, unfolding(transfer::specs::Inner::Machine::queued))]
fn queue(round: Round, words: u16) -> Point
    ensures { queued round words ≡ Ok (Some result) }
{
    if words == 0 {
        Point::ReadAsync(RoundPoint::Level(round))
    } else {
        Point::ReadAsync(RoundPoint::Queue(round, words))
    }
}

// A round is over.
#[tactic(auto, unfolding(transfer::specs::Inner::Machine::next_turn))]
fn turn(send_stop: bool, round: Round) -> Option<Point>
    ensures { next_turn send_stop round ≡ Ok result }
{
    if round.remaining == 0 {
        wait_for_stop(send_stop, Ok(()))
    } else {
        Some(Point::ReadAsync(RoundPoint::Capacity(round)))
    }
}

// So many bytes are to be fetched. `send_stop` stays beside the round: it is the operation's, and only handed
// on to the wait for STOP.
#[tactic(auto, unfolding(transfer::specs::Inner::Machine::fetching))]
fn fetch(send_stop: bool, round: Round, left: u16) -> Option<Point>
    ensures { fetching send_stop round left ≡ Ok result }
{
    if left == 0 {
        turn(send_stop, round)
    } else {
        Some(Point::ReadAsync(RoundPoint::Fetch(round, left)))
    }
}

// An async write: from byte i on, with so many free places.
#[tactic(auto, unfolding(transfer::specs::Inner::Machine::filling))]
fn fill(operation: Operation, i: u16, space: u16) -> Option<Point>
    ensures { filling operation.len operation.send_stop i space ≡ Ok result }
{
    if space == 0 {
        Some(Point::Abort(AbortPoint::Source, Caller::Space(i)))
    } else if i < operation.len {
        Some(Point::WriteAsync(FillPoint::Fill(i, space)))
    } else {
        wait_for_stop(operation.send_stop, Ok(()))
    }
}

// A round of an async read whose level was read without an abort.
#[tactic(auto, unfolding(transfer::specs::Inner::Machine::returned))]
pub fn batch_read(send_stop: bool, round: Round, rxfifo: u16) -> Option<Point>
    ensures { returned 0 send_stop (Caller.Batch round rxfifo) (Ok tt) ≡ Ok result }
{
    if rxfifo < round.batch {
        return Some(Point::Wait(WaitPoint::RxTl(round)));
    }
    let n = rxfifo.min(round.remaining);
    let remaining = round.remaining - n;
    fetch(send_stop, Round { remaining, ..round }, n)
}

#[tactic(auto, unfolding(transfer::specs::Inner::Machine::step_round, transfer::specs::Inner::Machine::batch_step))]
fn after_capacity(round: Round, v: u32) -> Step
    ensures { result ≡ step_round false (RoundPoint.Capacity round) v }
{
    let batch = round.queue.min(capacity_of(v)?);
    Ok(Some(queue(Round { batch, ..round }, batch)))
}

#[tactic(auto, unfolding(transfer::specs::Inner::Machine::step_round))]
fn word_queued(round: Round, words: u16) -> Point
    ensures { step_round false (RoundPoint.Queue round words) 0 ≡ Ok (Some result) }
{
    let left = round.queue.saturating_sub(1);
    queue(
        Round {
            queue: left,
            ..round
        },
        words.saturating_sub(1),
    )
}

#[tactic(auto, unfolding(transfer::specs::Inner::Machine::step_round))]
pub fn after_round(send_stop: bool, p: RoundPoint, v: u32) -> Step
    ensures { result ≡ step_round send_stop p v }
{
    match p {
        RoundPoint::Capacity(round) => after_capacity(round, v),
        RoundPoint::Queue(round, words) => Ok(Some(word_queued(round, words))),
        RoundPoint::Level(round) => Ok(Some(Point::Abort(
            AbortPoint::Source,
            Caller::Batch(round, u16::from(level_of(v))),
        ))),
        RoundPoint::Fetch(round, left) => Ok(fetch(send_stop, round, left.saturating_sub(1))),
    }
}

// A write's look at the places stays apart from a read's (`after_room`): both test for none, but each leads
// to points of its own, and one function of both would be given all four.
#[tactic(auto, unfolding(transfer::specs::Inner::Machine::step_fill, transfer::specs::Inner::Machine::full_step))]
fn after_full(i: u16, v: u32) -> Step
    ensures { result ≡ step_fill 0 false (FillPoint.Full i) v }
{
    if capacity_of(v)? == 0 {
        Ok(Some(Point::Wait(WaitPoint::TxTl(i))))
    } else {
        Ok(Some(Point::WriteAsync(FillPoint::Free(i))))
    }
}

#[tactic(auto, unfolding(transfer::specs::Inner::Machine::step_fill, transfer::specs::Inner::Machine::free_step, transfer::specs::Inner::Machine::after_index))]
pub fn after_fill(operation: Operation, p: FillPoint, v: u32) -> Step
    ensures { result ≡ step_fill operation.len operation.send_stop p v }
{
    match p {
        FillPoint::Free(i) => Ok(fill(operation, i, capacity_of(v)?)),
        FillPoint::Fill(i, space) => {
            let next = if i < operation.len { i + 1 } else { i };
            Ok(fill(operation, next, space.saturating_sub(1)))
        }
        FillPoint::Full(i) => after_full(i, v),
    }
}
