// Numbers as points. A number that has no point is taken for the last one of its kind.
ghost use Rattle.std.specs.Prelude.{◌≡◌};
ghost use Rattle.words_points.specs.Inner.Numbers.{reason_at, tried_at, round_at, caller_at, poll_at};
ghost use Rattle.words_points.specs.Inner.Numbers.{setup_at, abort_at, read_at, write_at, queue_at};
ghost use Rattle.words_points.specs.Inner.Numbers.{fill_at};
ghost use Rattle.words_points.specs.Inner.Numbers.{wait_at, stop_at, point_at};

use super::{Failure, Place, Who};
use regs::answers::{AbortReason, Answer};
use transfer::{
    AbortPoint, Caller, FillPoint, Point, Poll, ReadPoint, Round, RoundPoint, SetupPoint,
    StopPoint, Tried, WaitPoint, WritePoint,
};

impl From<Failure> for AbortReason {
    ghost from_gives = { λ f r. r ≡ reason_at f };

    #[tactic(auto, unfolding(crate::specs::Inner::Numbers::reason_at))]
    fn from(f: Failure) -> Self {
        match f.kind {
            1 => AbortReason::NoAcknowledge,
            2 => AbortReason::ArbitrationLoss,
            3 => AbortReason::TxNotEmpty(f.count),
            5 => AbortReason::DataNotAcknowledged(f.word),
            _ => AbortReason::Other(f.word),
        }
    }
}

impl From<Failure> for Tried {
    ghost from_gives = { λ f r. r ≡ tried_at f };

    #[tactic(auto, unfolding(crate::specs::Inner::Numbers::tried_at))]
    fn from(f: Failure) -> Self {
        if f.kind == 0 {
            Ok(())
        } else {
            Err(AbortReason::from(f))
        }
    }
}

impl From<Who> for Round {
    ghost from_gives = { λ w r. r ≡ round_at w };

    // The fields stay named one by one: `..` takes them from a value of the same type.
    #[tactic(auto, unfolding(crate::specs::Inner::Numbers::round_at))]
    fn from(w: Who) -> Self {
        Round {
            remaining: w.remaining,
            queue: w.queue,
            batch: w.batch,
        }
    }
}

impl From<Who> for Caller {
    ghost from_gives = { λ w r. r ≡ caller_at w };

    #[tactic(auto, unfolding(crate::specs::Inner::Numbers::caller_at))]
    fn from(w: Who) -> Self {
        match w.kind {
            0 => Caller::Read(w.index),
            1 => Caller::Write(w.index),
            2 => Caller::Batch(Round::from(w), w.count),
            3 => Caller::Space(w.index),
            _ => Caller::Stop(Tried::from(w.failure)),
        }
    }
}

impl From<Who> for Poll {
    ghost from_gives = { λ w r. r ≡ poll_at w };

    #[tactic(auto, unfolding(crate::specs::Inner::Numbers::poll_at))]
    fn from(w: Who) -> Self {
        match w.kind {
            2 => Poll::Batch(Round::from(w)),
            3 => Poll::Space(w.index),
            _ => Poll::Stop(Tried::from(w.failure)),
        }
    }
}

// `row` stays a number: it is a word of the caller's, and any number is answered. The functions by row stay
// functions: a number and a point are of other crates, so From could not stand here; most take more beside.
#[tactic(auto, unfolding(crate::specs::Inner::Numbers::setup_at))]
pub fn setup_of(row: u64) -> SetupPoint
    ensures { result ≡ setup_at row }
{
    match row {
        0 => SetupPoint::Disable,
        1 => SetupPoint::Target,
        _ => SetupPoint::Enable,
    }
}

// It stays a function, as `setup_of`.
#[tactic(auto, unfolding(crate::specs::Inner::Numbers::abort_at))]
pub fn abort_of(row: u64, word: u32) -> AbortPoint
    ensures { result ≡ abort_at row word }
{
    match row {
        0 => AbortPoint::Source,
        _ => AbortPoint::Clear(word),
    }
}

// It stays a function, as `setup_of`.
#[tactic(auto, unfolding(crate::specs::Inner::Numbers::read_at))]
pub fn read_of(row: u64, i: u16) -> ReadPoint
    ensures { result ≡ read_at row i }
{
    match row {
        0 => ReadPoint::Room(i),
        1 => ReadPoint::Ask(i),
        2 => ReadPoint::Level(i),
        _ => ReadPoint::Take(i),
    }
}

// It stays a function, as `setup_of`.
#[tactic(auto, unfolding(crate::specs::Inner::Numbers::write_at))]
pub fn write_of(row: u64, w: Who) -> WritePoint
    ensures { result ≡ write_at row w }
{
    match row {
        0 => WritePoint::Send(w.index),
        1 => WritePoint::Empty(w.index),
        _ => WritePoint::StopDet(Tried::from(w.failure)),
    }
}

// It stays a function, as `setup_of`.
#[tactic(auto, unfolding(crate::specs::Inner::Numbers::queue_at))]
pub fn queue_of(row: u64, w: Who) -> RoundPoint
    ensures { result ≡ queue_at row w }
{
    let round = Round::from(w);
    match row {
        0 => RoundPoint::Capacity(round),
        1 => RoundPoint::Queue(round, w.count),
        2 => RoundPoint::Level(round),
        _ => RoundPoint::Fetch(round, w.count),
    }
}

// It stays a function, as `setup_of`.
#[tactic(auto, unfolding(crate::specs::Inner::Numbers::fill_at))]
pub fn fill_of(row: u64, i: u16, n: u16) -> FillPoint
    ensures { result ≡ fill_at row i n }
{
    match row {
        0 => FillPoint::Free(i),
        1 => FillPoint::Fill(i, n),
        _ => FillPoint::Full(i),
    }
}

// It stays a function, as `setup_of`.
#[tactic(auto, unfolding(crate::specs::Inner::Numbers::wait_at))]
pub fn wait_of(row: u64, word: u32, w: Who) -> WaitPoint
    ensures { result ≡ wait_at row word w }
{
    match row {
        0 => WaitPoint::RxTl(Round::from(w)),
        1 => WaitPoint::TxTl(w.index),
        2 => WaitPoint::Mask(Poll::from(w)),
        3 => WaitPoint::SetMask(Poll::from(w), word),
        _ => WaitPoint::Pending(Poll::from(w)),
    }
}

// It stays a function, as `setup_of`.
#[tactic(auto, unfolding(crate::specs::Inner::Numbers::stop_at))]
pub fn stop_of(row: u64, f: Failure) -> StopPoint
    ensures { result ≡ stop_at row f }
{
    match row {
        0 => StopPoint::Stat(Tried::from(f)),
        _ => StopPoint::Clear(Tried::from(f)),
    }
}

impl From<Place> for Point {
    ghost from_gives = { λ p r. r ≡ point_at p };

    #[tactic(auto, unfolding(crate::specs::Inner::Numbers::point_at))]
    fn from(p: Place) -> Self {
        let w = p.who;
        match p.group {
            0 => Point::Setup(setup_of(p.row)),
            1 => Point::Abort(abort_of(p.row, p.word), Caller::from(w)),
            2 => Point::ReadBlocking(read_of(p.row, w.index)),
            3 => Point::WriteBlocking(write_of(p.row, w)),
            4 => Point::ReadAsync(queue_of(p.row, w)),
            5 => Point::WriteAsync(fill_of(p.row, w.index, w.count)),
            6 => Point::Wait(wait_of(p.row, p.word, w)),
            7 => Point::Stop(stop_of(p.row, w.failure)),
            _ => Point::Finished(Answer::Accepted),
        }
    }
}
