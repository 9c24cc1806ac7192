// The points of `reset` after the block is reset.
ghost use Rattle.std.specs.Prelude.{◌≡◌};
ghost use Rattle.slave_steps.specs.Inner.Machine.{next_reset, advance_reset};

use regs::access::Next;
use regs::answers::Answer;

#[derive(Clone, Copy)]
pub enum ResetPoint {
    Disable,
    Sar,
    Con,
    ConBack(u32),
    AckGeneralCall,
    TxTl,
    RxTl,
    ClrIntr,
    Enable,
    IntrMask,
    Done,
}

impl ResetPoint {
    // The access that is next, or the answer.
    pub fn next(self, address: u16, general_call: bool) -> Next
        ensures { result ≡ next_reset address general_call self }
    {
        match self {
            ResetPoint::Disable => Next::Write(regs::ENABLE, 0),
            ResetPoint::Sar => Next::Write(regs::SAR, regs::fields::address_of(u32::from(address))),
            ResetPoint::Con => Next::Read(regs::CON),
            ResetPoint::ConBack(w) => {
                Next::Write(regs::CON, regs::fields::con_of_slave(w, general_call))
            }
            ResetPoint::AckGeneralCall => {
                Next::Write(regs::ACK_GENERAL_CALL, u32::from(general_call))
            }
            ResetPoint::TxTl => Next::Write(regs::TX_TL, 0),
            ResetPoint::RxTl => Next::Write(regs::RX_TL, 0),
            ResetPoint::ClrIntr => Next::Read(regs::CLR_INTR),
            ResetPoint::Enable => Next::Write(regs::ENABLE, 1),
            ResetPoint::IntrMask => Next::Write(regs::INTR_MASK, 0),
            ResetPoint::Done => Next::Finished(Answer::Accepted),
        }
    }

    // What the Rust does from an access, which read v, up to the next one.
    pub fn advance(self, v: u32) -> ResetPoint
        ensures { result ≡ advance_reset self v }
    {
        match self {
            ResetPoint::Disable => ResetPoint::Sar,
            ResetPoint::Sar => ResetPoint::Con,
            ResetPoint::Con => ResetPoint::ConBack(v),
            ResetPoint::ConBack(_) => ResetPoint::AckGeneralCall,
            ResetPoint::AckGeneralCall => ResetPoint::TxTl,
            ResetPoint::TxTl => ResetPoint::RxTl,
            ResetPoint::RxTl => ResetPoint::ClrIntr,
            ResetPoint::ClrIntr => ResetPoint::Enable,
            ResetPoint::Enable => ResetPoint::IntrMask,
            ResetPoint::IntrMask | ResetPoint::Done => ResetPoint::Done,
        }
    }
}
