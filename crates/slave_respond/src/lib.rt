// `respond_to_read` as a machine of one access a step, with what a response sends
// and leads to. The crate `slave_steps` joins it with the slave's other machines.
#![tactic(auto)]

ghost use Rattle.std.specs.Prelude.{◌&&◌, ◌≡◌, get_or};
ghost use Rattle.regs.specs.Fields.{rd_req, tx_empty};
ghost use Rattle.slave.specs.I2cSlave.{abort_reason};
ghost use Rattle.slave_respond.specs.Inner.Machine.{count_of, sends_bytes, byte_at, answer_of, next_respond};
ghost use Rattle.slave_respond.specs.Inner.Machine.{chunk_end, more_bytes, fed, after_reason};
ghost use Rattle.slave_respond.specs.Inner.Machine.{after_byte};
ghost use Rattle.slave_respond.specs.Inner.Machine.{advance_respond};

use regs::access::Next;
use regs::answers::{AbortReason, Answer, ReadStatus, Refusal};
use regs::fields;

// RX_DONE, TX_EMPTY and TX_ABRT in INTR_MASK.
pub const MASK: u32 = 1 << 7 | 1 << 4 | 1 << 6;

// The bytes that a poll sends at most: a FIFO of them.
const CHUNK: u16 = 16;

// What is sent: the bytes of `respond_to_read`, those of `respond_and_fill`,
// the fill byte of `respond_till_stop`, and that of `respond_and_fill`.
#[derive(Clone, Copy)]
pub enum Job {
    Respond,
    RespondThenFill(u8),
    Fill(u8),
    FillAfter(u8),
}

// The access that is next, with the index of the byte and the end of its chunk where they are still wanted.
#[derive(Clone, Copy)]
pub enum RespondPoint {
    RawIntrStat(u16),
    TxAbrtSource(u32, u16),
    ClrTxAbrt(u32),
    ClrIntr(u16),
    ClrRdReq(u16, u16),
    DataCmd(u16, u16),
    ClrRxDone,
    IntrMask(u16),
    Mark(u16),
    Ended(ReadStatus),
    Aborted(AbortReason),
}

#[derive(Clone, Copy)]
pub struct Response {
    pub job: Job,
    pub point: RespondPoint,
}

impl Job {
    // Whether the lent bytes are sent, and not fill bytes.
    pub fn sends_bytes(self) -> bool
        ensures { result ≡ sends_bytes self }
    {
        matches!(self, Job::Respond | Job::RespondThenFill(_))
    }

    // How many bytes a response has: a FIFO of fill bytes at a time.
    pub fn count(self, length: u16) -> u16
        ensures { result ≡ count_of self length }
    {
        match self {
            Job::Respond | Job::RespondThenFill(_) => length,
            Job::Fill(_) | Job::FillAfter(_) => 16,
        }
    }

    // Past the end, 0 is sent. `bytes` and `i` stay two: the index is a part of the point, and the bytes
    // are lent.
    fn byte_at(self, bytes: &[u8], i: u16) -> u32
        ensures { result ≡ byte_at self bytes.now i }
    {
        match self {
            Job::Respond | Job::RespondThenFill(_) => {
                u32::from(bytes.get(usize::from(i)).copied().unwrap_or(0))
            }
            Job::Fill(fill) | Job::FillAfter(fill) => u32::from(fill),
        }
    }

    // What the call answers: fill bytes that the controller did not take are no part of it.
    fn answer(self, status: ReadStatus) -> Answer
        ensures { result ≡ answer_of self status }
    {
        match self {
            Job::Respond | Job::RespondThenFill(_) => Answer::Responded(status),
            Job::Fill(_) => Answer::Accepted,
            Job::FillAfter(_) => Answer::Responded(ReadStatus::Done),
        }
    }

    // What a response that needs more bytes leads to.
    fn more(self) -> Response
        ensures { result ≡ more_bytes self }
    {
        let fills = match self {
            Job::Respond => {
                return Response {
                    job: self,
                    point: RespondPoint::Ended(ReadStatus::NeedMoreBytes),
                };
            }
            Job::RespondThenFill(fill) => Job::FillAfter(fill),
            Job::Fill(_) | Job::FillAfter(_) => self,
        };
        Response {
            job: fills,
            point: RespondPoint::RawIntrStat(0),
        }
    }

    // What a poll without an abort comes to.
    fn feed(self, stat: u32, at: u16, length: u16) -> Response
        ensures { result ≡ fed self stat at (count_of self length) }
    {
        let count = self.count(length);
        let point = if at < count {
            RespondPoint::ClrRdReq(at, chunk_end(at, count))
        } else if fields::has_rx_done(stat) {
            RespondPoint::ClrRxDone
        } else if needs_more_bytes(stat) {
            return self.more();
        } else {
            RespondPoint::IntrMask(at)
        };
        Response { job: self, point }
    }
}

// Where the chunk that starts at `at` ends.
pub fn chunk_end(at: u16, count: u16) -> u16
    ensures { result ≡ chunk_end at count }
{
    if at < count && CHUNK <= count - at {
        at + CHUNK
    } else {
        count
    }
}

fn needs_more_bytes(stat: u32) -> bool
    ensures { result ≡ rd_req stat && tx_empty stat }
{
    fields::has_rd_req(stat) & fields::has_tx_empty(stat)
}

fn reason(w: u32) -> AbortReason
    ensures { result ≡ abort_reason w }
{
    if fields::is_no_acknowledge(w) {
        return AbortReason::NoAcknowledge;
    }
    if fields::is_arbitration_loss(w) {
        return AbortReason::ArbitrationLoss;
    }
    let n = fields::flush_count(w);
    if 0 < n {
        return AbortReason::TxNotEmpty(n);
    }
    AbortReason::Other(w)
}

fn after_reason(reason: AbortReason) -> RespondPoint
    ensures { result ≡ after_reason reason }
{
    match reason {
        AbortReason::TxNotEmpty(n) => RespondPoint::ClrIntr(n),
        AbortReason::NoAcknowledge
        | AbortReason::ArbitrationLoss
        | AbortReason::Other(_)
        | AbortReason::DataNotAcknowledged(_) => RespondPoint::Aborted(reason),
    }
}

// A byte stands below its chunk's end; the first test keeps the sum in range.
fn after_byte(i: u16, end: u16) -> RespondPoint
    ensures { result ≡ after_byte i end }
{
    if i < end && i + 1 < end {
        RespondPoint::ClrRdReq(i + 1, end)
    } else {
        RespondPoint::IntrMask(end)
    }
}

impl Response {
    // The access that is next, or the answer.
    pub fn next(self, bytes: &[u8]) -> Next
        ensures { result ≡ next_respond bytes.now self.job self.point }
    {
        match self.point {
            RespondPoint::RawIntrStat(_) => Next::Read(regs::RAW_INTR_STAT),
            RespondPoint::TxAbrtSource(_, _) => Next::Read(regs::TX_ABRT_SOURCE),
            RespondPoint::ClrTxAbrt(_) => Next::Read(regs::CLR_TX_ABRT),
            RespondPoint::ClrIntr(_) => Next::Read(regs::CLR_INTR),
            RespondPoint::ClrRdReq(_, _) => Next::Read(regs::CLR_RD_REQ),
            RespondPoint::DataCmd(i, _) => Next::Write(regs::DATA_CMD, self.job.byte_at(bytes, i)),
            RespondPoint::ClrRxDone => Next::Read(regs::CLR_RX_DONE),
            RespondPoint::IntrMask(_) => Next::Write(regs::INTR_MASK, MASK),
            RespondPoint::Mark(_) => Next::Mark(regs::PENDING),
            RespondPoint::Ended(status) => Next::Finished(self.job.answer(status)),
            RespondPoint::Aborted(reason) => Next::Finished(Answer::Refused(Refusal::Abort(
                reason,
            ))),
        }
    }

    // What the Rust does from an access, which read v, up to the next one.
    pub fn advance(self, v: u32, length: u16) -> Response
        ensures { result ≡ advance_respond length self.job self.point v }
    {
        let job = self.job;
        let point = match self.point {
            RespondPoint::RawIntrStat(at) if fields::has_tx_abrt(v) => RespondPoint::TxAbrtSource(
                v, at,
            ),
            RespondPoint::RawIntrStat(at) => return job.feed(v, at, length),
            RespondPoint::TxAbrtSource(stat, at) if v == 0 => return job.feed(stat, at, length),
            RespondPoint::TxAbrtSource(_, _) => RespondPoint::ClrTxAbrt(v),
            RespondPoint::ClrTxAbrt(w) => after_reason(reason(w)),
            RespondPoint::ClrIntr(n) => RespondPoint::Ended(ReadStatus::LeftoverBytes(n)),
            RespondPoint::ClrRdReq(i, end) => RespondPoint::DataCmd(i, end),
            RespondPoint::DataCmd(i, end) => after_byte(i, end),
            RespondPoint::ClrRxDone => RespondPoint::Ended(ReadStatus::Done),
            RespondPoint::IntrMask(at) => RespondPoint::Mark(at),
            RespondPoint::Mark(at) => RespondPoint::RawIntrStat(at),
            RespondPoint::Ended(_) | RespondPoint::Aborted(_) => self.point,
        };
        Response { job, point }
    }
}
