// The number and detail of each answer (docs/MANUAL.md).
#![tactic(auto)]

ghost use Rattle.std.specs.Prelude.{◌≡◌};
ghost use Rattle.regs.specs.Answers.{abort_number, refusal_number, answer_number, number, command_detail};
ghost use Rattle.regs.specs.Answers.{status_detail, abort_detail, refusal_detail, answer_detail, detail};

use regs::answers::{AbortReason, Answer, Command, ReadStatus, Refusal, Reply};

// These stay functions, since From is no plainer here: `u8::from(reply)` and `u32::from(reply)` would
// say less than `number_of` and `detail_of` do, and could stand in `regs` alone, whose types these are.
fn number_of_abort(r: AbortReason) -> u8
    ensures { result ≡ abort_number r }
{
    match r {
        AbortReason::NoAcknowledge => 9,
        AbortReason::ArbitrationLoss => 10,
        AbortReason::TxNotEmpty(_) | AbortReason::Other(_) => 11,
        AbortReason::DataNotAcknowledged(_) => 23,
    }
}

// It stays a function, as above.
fn number_of_refusal(r: Refusal) -> u8
    ensures { result ≡ refusal_number r }
{
    match r {
        Refusal::FrequencyTooHigh => 1,
        Refusal::FrequencyZero => 2,
        Refusal::ClockOutOfRange => 3,
        Refusal::ClockTooFast => 4,
        Refusal::ClockTooSlow => 5,
        Refusal::AddressOutOfRange(_) => 6,
        Refusal::InvalidReadBufferLength => 7,
        Refusal::InvalidWriteBufferLength => 8,
        Refusal::Abort(why) => number_of_abort(why),
        Refusal::TxLevelOutOfRange(_) => 12,
        Refusal::InvalidResponseBufferLength => 13,
        Refusal::PartialWrite(_) => 14,
        Refusal::PartialGeneralCall(_) => 15,
        Refusal::SlaveAddressZero => 16,
        Refusal::NoPlaceForPending => 17,
        Refusal::OverLimits => 20,
        Refusal::WrongPacketErrorCode => 22,
    }
}

// It stays a function, as above.
fn number_of_answer(a: Answer) -> u8
    ensures { result ≡ answer_number a }
{
    match a {
        Answer::Accepted | Answer::Heard(_) | Answer::Responded(_) => 0,
        Answer::Refused(r) => number_of_refusal(r),
    }
}

// The number of a reply, 0 where the call was accepted. It stays a function, as above.
pub fn number_of(r: Reply) -> u8
    ensures { result ≡ number r }
{
    match r {
        Reply::Answered(a) => number_of_answer(a),
        Reply::OutOfReadings => 18,
        Reply::LogFull => 19,
    }
}

// The details stay functions too: From would be a second way from a reply to a number, which tells another.
fn detail_of_command(c: Command) -> u32
    ensures { result ≡ command_detail c }
{
    match c {
        Command::GeneralCall(n) => 0x10000 + u32::from(n),
        Command::Read => 0x20000,
        Command::WriteRead(n) => 0x30000 + u32::from(n),
        Command::Write(n) => 0x40000 + u32::from(n),
    }
}

// It stays a function, as above.
fn detail_of_status(s: ReadStatus) -> u32
    ensures { result ≡ status_detail s }
{
    match s {
        ReadStatus::Done => 0x10000,
        ReadStatus::NeedMoreBytes => 0x20000,
        ReadStatus::LeftoverBytes(n) => 0x30000 + u32::from(n),
    }
}

// It stays a function, as above.
fn detail_of_abort(r: AbortReason) -> u32
    ensures { result ≡ abort_detail r }
{
    match r {
        AbortReason::NoAcknowledge | AbortReason::ArbitrationLoss => 0,
        AbortReason::TxNotEmpty(n) => u32::from(n),
        AbortReason::Other(w) => w,
        AbortReason::DataNotAcknowledged(w) => w,
    }
}

// It stays a function, as above.
fn detail_of_refusal(r: Refusal) -> u32
    ensures { result ≡ refusal_detail r }
{
    match r {
        Refusal::AddressOutOfRange(a) => u32::from(a),
        Refusal::Abort(why) => detail_of_abort(why),
        Refusal::TxLevelOutOfRange(level) => u32::from(level),
        Refusal::PartialWrite(n) | Refusal::PartialGeneralCall(n) => u32::from(n),
        _ => 0,
    }
}

// It stays a function, as above.
fn detail_of_answer(a: Answer) -> u32
    ensures { result ≡ answer_detail a }
{
    match a {
        Answer::Accepted => 0,
        Answer::Heard(c) => detail_of_command(c),
        Answer::Responded(s) => detail_of_status(s),
        Answer::Refused(r) => detail_of_refusal(r),
    }
}

// The detail of a reply, 0 where it has none. It stays a function, as above.
pub fn detail_of(r: Reply) -> u32
    ensures { result ≡ detail r }
{
    match r {
        Reply::Answered(a) => detail_of_answer(a),
        Reply::OutOfReadings | Reply::LogFull => 0,
    }
}
