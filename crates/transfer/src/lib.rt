// Where a master transfer stands: the access that is next, grouped by the Rust function that
// it lies in. In specs/ is the machine over these points, of one register access a step; the
// crates `transfer_access` to `transfer_steps` are its code. Apart, each is proved quickly.
#![tactic(auto)]

pub mod counts; // places of the FIFO, and places in a buffer
pub mod operations; // what is to be done, as the caller lists it

ghost use Rattle.std.specs.Prelude.{◌≡◌};
ghost use Rattle.transfer.specs.Inner.Points.{with_point};

use regs::answers::{AbortReason, Answer, Refusal};

#[derive(Clone, Copy)]
pub enum Mode {
    Blocking,
    Async,
}

// `Result<(), Error>`, where the Rust looks at it: the errors that it then holds are aborts.
pub type Tried = Result<(), AbortReason>;

// What the rounds of an async read count: the bytes still to
// take, the words still to queue, and the words of this round.
#[derive(Clone, Copy)]
pub struct Round {
    pub remaining: u16,
    pub queue: u16,
    pub batch: u16,
}

// fn setup
#[derive(Clone, Copy)]
pub enum SetupPoint {
    Disable,
    Target,
    Enable,
}

// fn read_and_clear_abort_reason: the source, and the clearing of a source that was read
#[derive(Clone, Copy)]
pub enum AbortPoint {
    Source,
    Clear(u32),
}

// who called it: the byte that is read or written, the round with the level that was
// read, the byte that waits for a place, or what is known before the wait for STOP
#[derive(Clone, Copy)]
pub enum Caller {
    Read(u16),
    Write(u16),
    Batch(Round, u16),
    Space(u16),
    Stop(Tried),
}

// fn read_blocking_internal, at a byte
#[derive(Clone, Copy)]
pub enum ReadPoint {
    Room(u16),
    Ask(u16),
    Level(u16),
    Take(u16),
}

// fn write_blocking_internal, at a byte
#[derive(Clone, Copy)]
pub enum WritePoint {
    Send(u16),
    Empty(u16),
    StopDet(Tried),
}

// fn read_async_internal, in a round: so many words to queue, so many bytes to fetch
#[derive(Clone, Copy)]
pub enum RoundPoint {
    Capacity(Round),
    Queue(Round, u16),
    Level(Round),
    Fetch(Round, u16),
}

// fn write_async_internal, at a byte: so many places to fill
#[derive(Clone, Copy)]
pub enum FillPoint {
    Free(u16),
    Fill(u16, u16),
    Full(u16),
}

// which closure fn wait_on polls
#[derive(Clone, Copy)]
pub enum Poll {
    Batch(Round),
    Space(u16),
    Stop(Tried),
}

// fn wait_on, after a poll that is not ready
#[derive(Clone, Copy)]
pub enum WaitPoint {
    RxTl(Round),
    TxTl(u16),
    Mask(Poll),
    SetMask(Poll, u32),
    Pending(Poll),
}

// fn wait_stop_det, and the clearing of STOP_DET
#[derive(Clone, Copy)]
pub enum StopPoint {
    Stat(Tried),
    Clear(Tried),
}

#[derive(Clone, Copy)]
pub enum Point {
    Setup(SetupPoint),
    Abort(AbortPoint, Caller),
    ReadBlocking(ReadPoint),
    WriteBlocking(WritePoint),
    ReadAsync(RoundPoint),
    WriteAsync(FillPoint),
    Wait(WaitPoint),
    Stop(StopPoint),
    Finished(Answer),
}

// Where a reading leads: to a point, to the next operation, or to the end of the transfer by a refusal.
pub type Step = Result<Option<Point>, Refusal>;

// `at` stays a number, not a part of a lent slice: a transfer outlives each loan of its buffers.
// The operation under way: where it starts in its buffer, its length, whether a read's first word
// carries RESTART, and whether STOP rides on its last word.
#[derive(Clone, Copy)]
pub struct Operation {
    pub at: usize,
    pub len: u16,
    pub restart: bool,
    pub send_stop: bool,
}

// `reads` and `writes` stay numbers too: the buffers are lent anew at each step.
// A transfer: its point, the operation under way, the number of operations
// begun, and where the next read and the next write start.
#[derive(Clone, Copy)]
pub struct Transfer {
    pub point: Point,
    pub mode: Mode,
    pub address: u16,
    pub operation: Operation,
    pub begun: usize,
    pub reads: usize,
    pub writes: usize,
}

impl Transfer {
    pub fn at_point(self, point: Point) -> Self
        ensures { result ≡ with_point self point }
    {
        Transfer { point, ..self }
    }
}
