// Points as numbers.
ghost use Rattle.std.specs.Prelude.{◌≡◌};
ghost use Rattle.words_points.specs.Inner.Numbers.{reason_row, tried_row, indexed, rounded, ending};
ghost use Rattle.words_points.specs.Inner.Numbers.{caller_row, poll_row, place_row, setup_row, abort_row};
ghost use Rattle.words_points.specs.Inner.Numbers.{read_row, write_row, queue_row, fill_row, wait_row};
ghost use Rattle.words_points.specs.Inner.Numbers.{stop_row, answer_row, place_of};

use super::{Failure, Place, Who};
use regs::answers::{AbortReason, Answer, Reply};
use transfer::{
    AbortPoint, Caller, FillPoint, Point, Poll, ReadPoint, Round, RoundPoint, SetupPoint,
    StopPoint, Tried, WaitPoint, WritePoint,
};

const NO_FAILURE: Failure = Failure {
    kind: 0,
    count: 0,
    word: 0,
};

const NOBODY: Who = Who {
    kind: 0,
    index: 0,
    count: 0,
    remaining: 0,
    queue: 0,
    batch: 0,
    failure: NO_FAILURE,
};

impl From<AbortReason> for Failure {
    ghost from_gives = { λ p r. r ≡ reason_row p };

    #[tactic(auto, unfolding(crate::specs::Inner::Numbers::reason_row, crate::specs::Inner::Numbers::failure))]
    fn from(p: AbortReason) -> Self {
        match p {
            AbortReason::NoAcknowledge => Failure {
                kind: 1,
                ..NO_FAILURE
            },
            AbortReason::ArbitrationLoss => Failure {
                kind: 2,
                ..NO_FAILURE
            },
            AbortReason::TxNotEmpty(count) => Failure {
                kind: 3,
                count,
                ..NO_FAILURE
            },
            AbortReason::Other(word) => Failure {
                kind: 4,
                word,
                ..NO_FAILURE
            },
            AbortReason::DataNotAcknowledged(source) => Failure {
                kind: 5,
                word: source,
                ..NO_FAILURE
            },
        }
    }
}

impl From<Tried> for Failure {
    ghost from_gives = { λ p r. r ≡ tried_row p };

    #[tactic(auto, unfolding(crate::specs::Inner::Numbers::tried_row, crate::specs::Inner::Numbers::failure))]
    fn from(p: Tried) -> Self {
        match p {
            Ok(()) => NO_FAILURE,
            Err(reason) => Failure::from(reason),
        }
    }
}

impl Who {
    // `kind` stays a number, here and below: it goes into a word of the caller's as it is. The counts of a
    // round stay named one by one, as `..` takes fields from a value of the same type.
    #[tactic(auto, unfolding(crate::specs::Inner::Numbers::indexed, crate::specs::Inner::Numbers::failure))]
    fn at_byte(kind: u64, index: u16, count: u16) -> Self
        ensures { result ≡ indexed kind index count }
    {
        Who {
            kind,
            index,
            count,
            ..NOBODY
        }
    }

    // The three counts stay named one by one, as said above.
    #[tactic(auto, unfolding(crate::specs::Inner::Numbers::rounded, crate::specs::Inner::Numbers::failure))]
    fn in_round(kind: u64, round: Round, count: u16) -> Self
        ensures { result ≡ rounded kind round count }
    {
        Who {
            kind,
            count,
            remaining: round.remaining,
            queue: round.queue,
            batch: round.batch,
            ..NOBODY
        }
    }

    #[tactic(auto, unfolding(crate::specs::Inner::Numbers::ending))]
    fn at_end(kind: u64, tried: Tried) -> Self
        ensures { result ≡ ending kind tried }
    {
        Who {
            kind,
            failure: Failure::from(tried),
            ..NOBODY
        }
    }
}

impl From<Caller> for Who {
    ghost from_gives = { λ p r. r ≡ caller_row p };

    #[tactic(auto, unfolding(crate::specs::Inner::Numbers::caller_row))]
    fn from(p: Caller) -> Self {
        match p {
            Caller::Read(i) => Who::at_byte(0, i, 0),
            Caller::Write(i) => Who::at_byte(1, i, 0),
            Caller::Batch(round, n) => Who::in_round(2, round, n),
            Caller::Space(i) => Who::at_byte(3, i, 0),
            Caller::Stop(had) => Who::at_end(4, had),
        }
    }
}

impl From<Poll> for Who {
    ghost from_gives = { λ p r. r ≡ poll_row p };

    #[tactic(auto, unfolding(crate::specs::Inner::Numbers::poll_row))]
    fn from(p: Poll) -> Self {
        match p {
            Poll::Batch(round) => Who::in_round(2, round, 0),
            Poll::Space(i) => Who::at_byte(3, i, 0),
            Poll::Stop(had) => Who::at_end(4, had),
        }
    }
}

// `group` and `row` stay numbers: this is where they are put beside each other for the words.
#[tactic(auto, unfolding(crate::specs::Inner::Numbers::place_row))]
fn at(group: u64, row: u64, word: u32, who: Who) -> Place
    ensures { result ≡ place_row group row word who }
{
    Place {
        group,
        row,
        word,
        who,
    }
}

impl From<SetupPoint> for Place {
    ghost from_gives = { λ p r. r ≡ setup_row p };

    // This and those below look alike and stay apart: each has the points of another Rust function, and its
    // own rows.
    #[tactic(auto, unfolding(crate::specs::Inner::Numbers::setup_row))]
    fn from(p: SetupPoint) -> Self {
        match p {
            SetupPoint::Disable => at(0, 0, 0, Who::at_byte(0, 0, 0)),
            SetupPoint::Target => at(0, 1, 0, Who::at_byte(0, 0, 0)),
            SetupPoint::Enable => at(0, 2, 0, Who::at_byte(0, 0, 0)),
        }
    }
}

// It stays a function, not a From: the caller of the look for an abort comes beside it.
#[tactic(auto, unfolding(crate::specs::Inner::Numbers::abort_row))]
fn of_abort(p: AbortPoint, caller: Caller) -> Place
    ensures { result ≡ abort_row caller p }
{
    match p {
        AbortPoint::Source => at(1, 0, 0, Who::from(caller)),
        AbortPoint::Clear(w) => at(1, 1, w, Who::from(caller)),
    }
}

impl From<ReadPoint> for Place {
    ghost from_gives = { λ p r. r ≡ read_row p };

    // It stays apart from the one of `RoundPoint`, as said above.
    #[tactic(auto, unfolding(crate::specs::Inner::Numbers::read_row))]
    fn from(p: ReadPoint) -> Self {
        match p {
            ReadPoint::Room(i) => at(2, 0, 0, Who::at_byte(0, i, 0)),
            ReadPoint::Ask(i) => at(2, 1, 0, Who::at_byte(0, i, 0)),
            ReadPoint::Level(i) => at(2, 2, 0, Who::at_byte(0, i, 0)),
            ReadPoint::Take(i) => at(2, 3, 0, Who::at_byte(0, i, 0)),
        }
    }
}

impl From<WritePoint> for Place {
    ghost from_gives = { λ p r. r ≡ write_row p };

    #[tactic(auto, unfolding(crate::specs::Inner::Numbers::write_row))]
    fn from(p: WritePoint) -> Self {
        match p {
            WritePoint::Send(i) => at(3, 0, 0, Who::at_byte(0, i, 0)),
            WritePoint::Empty(i) => at(3, 1, 0, Who::at_byte(0, i, 0)),
            WritePoint::StopDet(had) => at(3, 2, 0, Who::at_end(0, had)),
        }
    }
}

impl From<RoundPoint> for Place {
    ghost from_gives = { λ p r. r ≡ queue_row p };

    #[tactic(auto, unfolding(crate::specs::Inner::Numbers::queue_row))]
    fn from(p: RoundPoint) -> Self {
        match p {
            RoundPoint::Capacity(round) => at(4, 0, 0, Who::in_round(0, round, 0)),
            RoundPoint::Queue(round, n) => at(4, 1, 0, Who::in_round(0, round, n)),
            RoundPoint::Level(round) => at(4, 2, 0, Who::in_round(0, round, 0)),
            RoundPoint::Fetch(round, n) => at(4, 3, 0, Who::in_round(0, round, n)),
        }
    }
}

impl From<FillPoint> for Place {
    ghost from_gives = { λ p r. r ≡ fill_row p };

    #[tactic(auto, unfolding(crate::specs::Inner::Numbers::fill_row))]
    fn from(p: FillPoint) -> Self {
        match p {
            FillPoint::Free(i) => at(5, 0, 0, Who::at_byte(0, i, 0)),
            FillPoint::Fill(i, n) => at(5, 1, 0, Who::at_byte(0, i, n)),
            FillPoint::Full(i) => at(5, 2, 0, Who::at_byte(0, i, 0)),
        }
    }
}

impl From<WaitPoint> for Place {
    ghost from_gives = { λ p r. r ≡ wait_row p };

    #[tactic(auto, unfolding(crate::specs::Inner::Numbers::wait_row))]
    fn from(p: WaitPoint) -> Self {
        match p {
            WaitPoint::RxTl(round) => at(6, 0, 0, Who::in_round(0, round, 0)),
            WaitPoint::TxTl(i) => at(6, 1, 0, Who::at_byte(0, i, 0)),
            WaitPoint::Mask(poll) => at(6, 2, 0, Who::from(poll)),
            WaitPoint::SetMask(poll, w) => at(6, 3, w, Who::from(poll)),
            WaitPoint::Pending(poll) => at(6, 4, 0, Who::from(poll)),
        }
    }
}

impl From<StopPoint> for Place {
    ghost from_gives = { λ p r. r ≡ stop_row p };

    #[tactic(auto, unfolding(crate::specs::Inner::Numbers::stop_row))]
    fn from(p: StopPoint) -> Self {
        match p {
            StopPoint::Stat(had) => at(7, 0, 0, Who::at_end(0, had)),
            StopPoint::Clear(had) => at(7, 1, 0, Who::at_end(0, had)),
        }
    }
}

impl From<Answer> for Place {
    ghost from_gives = { λ p r. r ≡ answer_row p };

    #[tactic(auto, unfolding(crate::specs::Inner::Numbers::answer_row))]
    fn from(p: Answer) -> Self {
        let reply = Reply::Answered(p);
        at(
            8,
            u64::from(regs_numbers::number_of(reply)),
            regs_numbers::detail_of(reply),
            Who::at_byte(0, 0, 0),
        )
    }
}

impl From<Point> for Place {
    ghost from_gives = { λ p r. r ≡ place_of p };

    #[tactic(auto, unfolding(crate::specs::Inner::Numbers::place_of))]
    fn from(p: Point) -> Self {
        match p {
            Point::Setup(s) => Place::from(s),
            Point::Abort(a, caller) => of_abort(a, caller),
            Point::ReadBlocking(b) => Place::from(b),
            Point::WriteBlocking(w) => Place::from(w),
            Point::ReadAsync(q) => Place::from(q),
            Point::WriteAsync(f) => Place::from(f),
            Point::Wait(m) => Place::from(m),
            Point::Stop(s) => Place::from(s),
            Point::Finished(a) => Place::from(a),
        }
    }
}
