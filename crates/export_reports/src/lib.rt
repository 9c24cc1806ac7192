// What the exported calls return: answers, rates, causes and the slave's state as structs of
// numbers, and how they are made of the drivers' own (docs/MANUAL.md). The structs with a flag or a
// number beside values are those of the C interface.
#![tactic(auto)]

ghost use Rattle.std.specs.Prelude.{◌≡◌};

use clock_setting::Rate;
use regs::access::Ran;
use regs::answers::{Answer, Refusal, Reply};
use regs_causes::Counted;
use slave::SlaveState;

// `number`, and `entries` and `used` beside the lent log and readings, stay numbers: the C interface.
// What a call answers, the entries that it left in the log and the readings that it used.
#[repr(C)]
#[derive(Clone, Copy)]
pub struct Report {
    pub number: u8,
    pub detail: u32,
    pub entries: usize,
    pub used: usize,
}

// The number stays beside the rate, where Rust has a `Result`: the C interface.
// The rate that the bus gets from a clock setting: number 0, whole Hz and what the division of
// the clock leaves. Or the number under which the setting is refused; the other two are then 0.
#[repr(C)]
#[derive(Clone, Copy)]
pub struct BusRate {
    pub number: u8,
    pub hz: u32,
    pub remainder: u32,
}

// It stays a type beside `Counted`, of which C sees nothing: 0 and 0 here is `None` there.
// The causes of an abort: how many of bits 0 to 16 are set in its raw word,
// and the lowest of them. Both are 0 where none is set.
#[repr(C)]
#[derive(Clone, Copy)]
pub struct AbortCauses {
    pub count: u8,
    pub lowest: u8,
}

// The flag stays beside the byte, where Rust has an `Option`: the C interface.
// The slave's state: what lasts from call to call. The byte counts
// only where one is kept, and is given as 0 where none is.
#[repr(C)]
#[derive(Clone, Copy)]
pub struct Slave {
    pub has_pending: bool,
    pub pending_byte: u8,
    pub address: u16,
    pub general_call: bool,
}

// What a call of the slave leaves beside the log and the buffer.
#[repr(C)]
#[derive(Clone, Copy)]
pub struct SlaveReport {
    pub state: Slave,
    pub report: Report,
}

impl From<Ran> for Report {
    ghost use Rattle.export_reports.specs.Report.{report_of};

    ghost from_gives = { λ ran report. report ≡ report_of ran };

    // The fields stay named one by one, here and below: `..` takes them from a value of the same type.
    fn from(ran: Ran) -> Report {
        let reply = ran.reply;
        Report {
            number: regs_numbers::number_of(reply),
            detail: regs_numbers::detail_of(reply),
            entries: ran.entries,
            used: ran.used,
        }
    }
}

impl From<Result<Rate, Refusal>> for BusRate {
    ghost use Rattle.export_reports.specs.Report.{rate_of};

    ghost from_gives = { λ rated rate. rate ≡ rate_of rated };

    // The fields stay named one by one, as above.
    fn from(rated: Result<Rate, Refusal>) -> BusRate {
        match rated {
            Ok(rate) => BusRate {
                number: 0,
                hz: rate.hz,
                remainder: rate.remainder,
            },
            Err(why) => BusRate {
                number: regs_numbers::number_of(Reply::Answered(Answer::Refused(why))),
                hz: 0,
                remainder: 0,
            },
        }
    }
}

impl From<Option<Counted>> for AbortCauses {
    ghost use Rattle.export_reports.specs.Report.{cause_numbers};

    ghost from_gives = { λ set causes. causes ≡ cause_numbers set };

    // The fields stay named one by one, as above.
    fn from(set: Option<Counted>) -> AbortCauses {
        match set {
            None => AbortCauses {
                count: 0,
                lowest: 0,
            },
            Some(counted) => AbortCauses {
                count: counted.count,
                lowest: counted.lowest,
            },
        }
    }
}

impl From<Slave> for SlaveState {
    ghost use Rattle.export_reports.specs.Report.{state_of};

    ghost from_gives = { λ numbers state. state ≡ state_of numbers };

    // The fields stay named one by one, as above.
    fn from(s: Slave) -> SlaveState {
        SlaveState {
            pending_byte: s.has_pending.then_some(s.pending_byte),
            address: s.address,
            general_call: s.general_call,
        }
    }
}

// The state as numbers. Where no byte is kept, its place is 0.
impl From<SlaveState> for Slave {
    ghost use Rattle.export_reports.specs.Report.{numbers_of};

    ghost from_gives = { λ state numbers. numbers ≡ numbers_of state };

    // The fields stay named one by one, as above.
    fn from(s: SlaveState) -> Slave {
        Slave {
            has_pending: s.pending_byte.is_some(),
            pending_byte: s.pending_byte.unwrap_or(0),
            address: s.address,
            general_call: s.general_call,
        }
    }
}
