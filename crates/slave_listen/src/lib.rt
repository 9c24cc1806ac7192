// `listen` as a machine of one access a step. The crate `slave_steps`
// joins it with the slave's other machines; apart, each is proved quickly.
#![tactic(auto)]

pub mod drain; // the steps of `drain_fifo`

ghost use Rattle.std.specs.Prelude.{◌≡◌, ◌&&◌, ltb};
ghost use Rattle.regs.specs.Fields.{stop_det, rd_req, gen_call, restart_det};
ghost use Rattle.slave_listen.specs.Inner.Machine.{next_listen, settled, stays, advance_listen};

use regs::access::{Next, Store};
use regs::answers::{Answer, Command, Refusal};
use regs::fields;

// STOP_DET, RESTART_DET, GEN_CALL, RD_REQ and RX_FULL in INTR_MASK.
pub const MASK: u32 = 1 << 9 | 1 << 12 | 1 << 11 | 1 << 5 | 1 << 2;

// The access that is next, with the status word and the length so far where they are still wanted.
#[derive(Clone, Copy)]
pub enum ListenPoint {
    RxTl,
    RawIntrStat(u16),
    Rxflr(u32, u16),
    Status(u32, u16),
    DataCmd(u32, u16),
    Watermark(u32, u16),
    WriteRead(u16),
    GeneralCall(u16),
    GeneralCallStop(u16),
    Write(u16),
    Read,
    ReadRestart,
    ReadGeneralCall,
    StuckStop(u16),
    IntrMask(u16),
    Mark(u16),
    Heard(Command),
    PartialWrite(u16),
    PartialGeneralCall(u16),
}

// Where a step leads, the pending byte then, and what is stored with the step.
#[derive(Clone, Copy)]
pub struct Listened {
    pub point: ListenPoint,
    pub pending: Option<u8>,
    pub store: Store,
}

fn is_write_read(stat: u32) -> bool
    ensures { result ≡ restart_det stat && rd_req stat }
{
    fields::has_restart_det(stat) & fields::has_rd_req(stat)
}

fn is_general_call(stat: u32, len: u16) -> bool
    ensures { result ≡ gen_call stat && stop_det stat && ltb 0 len }
{
    fields::has_gen_call(stat) & fields::has_stop_det(stat) & (0 < len)
}

fn is_write(stat: u32, len: u16) -> bool
    ensures { result ≡ stop_det stat && ltb 0 len }
{
    fields::has_stop_det(stat) & (0 < len)
}

// A poll: the status word that it read first, and the places of the lent buffer.
#[derive(Clone, Copy)]
pub struct Poll {
    pub stat: u32,
    pub length: u16,
}

impl Poll {
    // What a poll comes to once the FIFO is drained, by the status word that was read before that.
    pub fn settle(self, len: u16) -> ListenPoint
        ensures { result ≡ settled self.length self.stat len }
    {
        if self.length == len {
            if fields::has_gen_call(self.stat) {
                return ListenPoint::PartialGeneralCall(self.length);
            }
            return ListenPoint::PartialWrite(self.length);
        }
        if is_write_read(self.stat) {
            return ListenPoint::WriteRead(len);
        }
        if is_general_call(self.stat, len) {
            return ListenPoint::GeneralCall(len);
        }
        if is_write(self.stat, len) {
            return ListenPoint::Write(len);
        }
        if fields::has_rd_req(self.stat) {
            return ListenPoint::Read;
        }
        if fields::has_stop_det(self.stat) {
            return ListenPoint::StuckStop(len);
        }
        ListenPoint::IntrMask(len)
    }
}

impl Listened {
    // A step with which nothing is stored and the pending byte stays.
    pub fn stay(pending: Option<u8>, point: ListenPoint) -> Listened
        ensures { result ≡ stays pending point }
    {
        Listened {
            point,
            pending,
            store: None,
        }
    }
}

impl ListenPoint {
    // The access that is next, or the answer.
    pub fn next(self) -> Next
        ensures { result ≡ next_listen self }
    {
        match self {
            ListenPoint::RxTl => Next::Write(regs::RX_TL, 0),
            ListenPoint::RawIntrStat(_) => Next::Read(regs::RAW_INTR_STAT),
            ListenPoint::Rxflr(_, _) => Next::Read(regs::RXFLR),
            ListenPoint::Status(_, _) => Next::Read(regs::STATUS),
            ListenPoint::DataCmd(_, _) => Next::Read(regs::DATA_CMD),
            ListenPoint::Watermark(_, _) => Next::Write(regs::RX_TL, 11),
            ListenPoint::WriteRead(_) | ListenPoint::ReadRestart => Next::Read(
                regs::CLR_RESTART_DET,
            ),
            ListenPoint::GeneralCall(_) | ListenPoint::ReadGeneralCall => Next::Read(
                regs::CLR_GEN_CALL,
            ),
            ListenPoint::GeneralCallStop(_)
            | ListenPoint::Write(_)
            | ListenPoint::Read
            | ListenPoint::StuckStop(_) => Next::Read(regs::CLR_STOP_DET),
            ListenPoint::IntrMask(_) => Next::Write(regs::INTR_MASK, MASK),
            ListenPoint::Mark(_) => Next::Mark(regs::PENDING),
            ListenPoint::Heard(command) => Next::Finished(Answer::Heard(command)),
            ListenPoint::PartialWrite(n) => Next::Finished(Answer::Refused(Refusal::PartialWrite(
                n,
            ))),
            ListenPoint::PartialGeneralCall(n) => Next::Finished(Answer::Refused(
                Refusal::PartialGeneralCall(n),
            )),
        }
    }

    // What the Rust does from an access, which read v, up to the next one.
    pub fn advance(self, pending: Option<u8>, v: u32, length: u16) -> Listened
        ensures { result ≡ advance_listen length self pending v }
    {
        let point = match self {
            ListenPoint::Rxflr(stat, len) => {
                return Poll { stat, length }.after_level(len, pending, v);
            }
            ListenPoint::DataCmd(stat, offset) => {
                return Poll { stat, length }.after_data(offset, pending, v);
            }
            ListenPoint::RxTl => ListenPoint::RawIntrStat(0),
            ListenPoint::RawIntrStat(len) => ListenPoint::Rxflr(v, len),
            ListenPoint::Status(stat, offset) => drain::after_status(stat, offset, v),
            ListenPoint::Watermark(stat, len) => Poll { stat, length }.settle(len),
            ListenPoint::WriteRead(len) => ListenPoint::Heard(Command::WriteRead(len)),
            ListenPoint::GeneralCall(len) => ListenPoint::GeneralCallStop(len),
            ListenPoint::GeneralCallStop(len) => ListenPoint::Heard(Command::GeneralCall(len)),
            ListenPoint::Write(len) => ListenPoint::Heard(Command::Write(len)),
            ListenPoint::Read => ListenPoint::ReadRestart,
            ListenPoint::ReadRestart => ListenPoint::ReadGeneralCall,
            ListenPoint::ReadGeneralCall => ListenPoint::Heard(Command::Read),
            ListenPoint::StuckStop(len) => ListenPoint::IntrMask(len),
            ListenPoint::IntrMask(len) => ListenPoint::Mark(len),
            ListenPoint::Mark(len) => ListenPoint::RawIntrStat(len),
            ListenPoint::Heard(_)
            | ListenPoint::PartialWrite(_)
            | ListenPoint::PartialGeneralCall(_) => self,
        };
        Listened::stay(pending, point)
    }
}
