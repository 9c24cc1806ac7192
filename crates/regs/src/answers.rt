// What a call answers, in the Rust's names. The number and detail of each answer (docs/MANUAL.md)
// are in specs/Answers.antt, and as code in `regs_numbers`.
// Why the controller gave a transfer up. The Rust has no DataNotAcknowledged: only the master
// here tells it, with the raw word.
#[derive(Clone, Copy)]
pub enum AbortReason {
    NoAcknowledge,
    ArbitrationLoss,
    TxNotEmpty(u16),
    Other(u32),
    DataNotAcknowledged(u32),
}

// What a slave that listens received.
#[derive(Clone, Copy)]
pub enum Command {
    GeneralCall(u16),
    Read,
    WriteRead(u16),
    Write(u16),
}

// How a slave's response ended.
#[derive(Clone, Copy)]
pub enum ReadStatus {
    Done,
    NeedMoreBytes,
    LeftoverBytes(u16),
}

// Why a call is turned down. What the Rust names has its name here.
#[derive(Clone, Copy)]
pub enum Refusal {
    FrequencyTooHigh,
    FrequencyZero,
    ClockOutOfRange,
    ClockTooFast,
    ClockTooSlow,
    AddressOutOfRange(u16),
    InvalidReadBufferLength,
    InvalidWriteBufferLength,
    Abort(AbortReason),
    TxLevelOutOfRange(u8),
    InvalidResponseBufferLength,
    PartialWrite(u16),
    PartialGeneralCall(u16),
    SlaveAddressZero,
    NoPlaceForPending,
    OverLimits,
    WrongPacketErrorCode,
}

// What a driver answers.
#[derive(Clone, Copy)]
pub enum Answer {
    Accepted,
    Heard(Command),
    Responded(ReadStatus),
    Refused(Refusal),
}

// What a run answers: what the driver did, or that a reading
// or a place in the log was wanted and there was none.
#[derive(Clone, Copy)]
pub enum Reply {
    Answered(Answer),
    OutOfReadings,
    LogFull,
}
