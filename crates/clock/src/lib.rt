// Clock setup: `set_config` of the Rust with the clock as an argument, as a machine of
// one register access a step and as a whole call; and the rate that the bus gets from it.
#![tactic(auto)]

ghost use Rattle.std.specs.Prelude.{◌≡◌, [], ◌/◌, ◌≤◌, ◌<◌, length, IfOk, IfErr};
ghost use Rattle.regs.specs.Inner.Machine.{final, ran};
ghost use Rattle.regs.specs.Log.{Leaves, expected};
ghost use Rattle.clock_setting.specs.SetConfig.{set_config, period, lcnt_of, hcnt_of, spklen};
ghost use Rattle.clock_setting.specs.Datasheet.{hold};
ghost use Rattle.clock_setting.specs.BusRate.{rated};
ghost use Rattle.clock.specs.Inner.Machine.{fits, reaches, holds, setting, start_of, next_of};
ghost use Rattle.clock.specs.Inner.Machine.{range, after_disable};
ghost use Rattle.clock.specs.Inner.Machine.{advance_of, machine};

use clock_setting::Rate;
use regs::access::{Next, Ran, Recording};
use regs::answers::{Answer, Refusal};

// What the registers are set to.
#[derive(Clone, Copy)]
pub struct Counts {
    pub hcnt: u32,
    pub lcnt: u32,
    pub spklen: u32,
    pub hold: u16,
}

// A frequency and a clock that are looked at further, both in Hz.
#[derive(Clone, Copy)]
struct Wanted {
    frequency: u32,
    clk: u32,
    ghost some_frequency: { 0 < frequency },
    ghost frequency_in_range: { frequency ≤ 1000000 },
    ghost clock_in_range: { clk ≤ 1431655765 },
}

// Where clock setup stands: the access that is next.
#[derive(Clone, Copy)]
pub enum ClockPoint {
    Disable(Result<Counts, Refusal>),
    Hcnt(Counts),
    Lcnt(Counts),
    Spklen(Counts),
    Hold(Counts),
    SetHold(u32),
    Enable,
    Finished(Answer),
}

// Three fifths of the period are low, the rest is high.
#[tactic(auto, unfolding(clock_setting::specs::SetConfig::lcnt_of))]
fn low_of(p: u32) -> u32
    requires { p ≤ 1431655765 }
    ensures { (result ≡ lcnt_of p)
        × (result ≤ p) }
{
    p * 3 / 5
}

#[tactic(auto, unfolding(clock_setting::specs::SetConfig::hcnt_of))]
fn high_of(p: u32, low: u32) -> u32
    requires { (low ≡ lcnt_of p)
        × (low ≤ p) }
    ensures { result ≡ hcnt_of p }
{
    p - low
}

// The spike count. The quotient is cut to 8 bits as in the Rust.
#[tactic(auto, unfolding(clock_setting::specs::SetConfig::spklen))]
fn spklen_of(lcnt: u32) -> u32
    ensures { result ≡ spklen lcnt }
{
    if lcnt < 16 { 1 } else { (lcnt >> 4) & 0xff }
}

// Whether the counts fit their registers.
#[tactic(auto, unfolding(crate::specs::Inner::Machine::fits))]
fn if_fits(hcnt: u32, lcnt: u32) -> Result<(), Refusal>
    ensures { result ≡ fits hcnt lcnt }
{
    if 0xffff < hcnt || 0xffff < lcnt {
        return Err(Refusal::ClockTooFast);
    }
    Ok(())
}

// Whether the clock is fast enough for the counts.
#[tactic(auto, unfolding(crate::specs::Inner::Machine::reaches))]
fn if_reaches(hcnt: u32, lcnt: u32) -> Result<(), Refusal>
    ensures { result ≡ reaches hcnt lcnt }
{
    if hcnt < 8 || lcnt < 8 {
        return Err(Refusal::ClockTooSlow);
    }
    Ok(())
}

impl Wanted {
    // What is tested before the first access. `frequency` and `clk` stay two numbers here and in the public
    // functions: a `Wanted` has only those in range, and callers, C among them, may give any.
    fn new(frequency: u32, clk: u32) -> Result<Wanted, Refusal>
        ensures same { IfOk result (λ w. (w.frequency ≡ frequency) × (w.clk ≡ clk)) }
        ensures in_range { IfOk result (λ w. range w.frequency w.clk ≡ Ok tt) }
        ensures refused { IfErr result (λ why. range frequency clk ≡ Err why) }
    {
        if 1_000_000 < frequency {
            return Err(Refusal::FrequencyTooHigh);
        }
        if frequency == 0 {
            return Err(Refusal::FrequencyZero);
        }
        if 1_431_655_765 < clk {
            return Err(Refusal::ClockOutOfRange);
        }
        Ok(Wanted { frequency, clk })
    }

    // The period of the bus in periods of the clock.
    #[tactic(auto, unfolding(clock_setting::specs::SetConfig::period))]
    fn period(self) -> u32
        ensures value { result ≡ period self.frequency self.clk }
        ensures in_range { result ≤ 1431655765 }
    {
        (self.clk + self.frequency / 2) / self.frequency
    }

    // SDA's hold time in periods of the clock: 300 ns below 1 MHz, 120 ns at 1 MHz.
    fn hold(self) -> u16
        ensures value { result ≡ hold self.frequency self.clk }
        ensures short { result < 1000 }
    {
        if self.frequency < 1_000_000 {
            (self.clk * 3 / 10_000_000 + 1) as u16
        } else {
            (self.clk * 3 / 25_000_000 + 1) as u16
        }
    }

    // Whether the hold time is short enough for the low count, and 1 MHz has a clock above 32 MHz.
    #[tactic(auto, unfolding(crate::specs::Inner::Machine::holds))]
    fn if_holds(self, lcnt: u32, hold: u16) -> Result<(), Refusal>
        ensures { result ≡ holds self.frequency self.clk lcnt hold }
    {
        if 1_000_000 <= self.frequency && self.clk < 32_000_001 {
            return Err(Refusal::ClockTooSlow);
        }
        if lcnt < u32::from(hold) + 2 {
            return Err(Refusal::ClockTooSlow);
        }
        Ok(())
    }

    // What these come to.
    fn setting(self) -> Result<Counts, Refusal>
        ensures { result ≡ setting self.frequency self.clk }
    {
        let period = self.period();
        let lcnt = low_of(period);
        let hcnt = high_of(period, lcnt);
        let hold = self.hold();
        if_fits(hcnt, lcnt)?;
        if_reaches(hcnt, lcnt)?;
        self.if_holds(lcnt, hold)?;
        Ok(Counts {
            hcnt,
            lcnt,
            spklen: spklen_of(lcnt),
            hold,
        })
    }
}

// The first access of clock setup, or its refusal.
pub fn start(frequency: u32, clk: u32) -> ClockPoint
    ensures { result ≡ start_of frequency clk }
{
    match Wanted::new(frequency, clk) {
        Ok(wanted) => ClockPoint::Disable(wanted.setting()),
        Err(why) => ClockPoint::Finished(Answer::Refused(why)),
    }
}

// The access that is next, or the answer.
pub fn next_access(p: ClockPoint) -> Next
    ensures { result ≡ next_of p }
{
    match p {
        ClockPoint::Disable(_) => Next::Write(regs::ENABLE, 0),
        ClockPoint::Hcnt(n) => Next::Write(regs::FS_SCL_HCNT, n.hcnt),
        ClockPoint::Lcnt(n) => Next::Write(regs::FS_SCL_LCNT, n.lcnt),
        ClockPoint::Spklen(n) => Next::Write(regs::FS_SPKLEN, n.spklen),
        ClockPoint::Hold(_) => Next::Read(regs::SDA_HOLD),
        ClockPoint::SetHold(w) => Next::Write(regs::SDA_HOLD, w),
        ClockPoint::Enable => Next::Write(regs::ENABLE, 1),
        ClockPoint::Finished(a) => Next::Finished(a),
    }
}

fn disabled(setting: Result<Counts, Refusal>) -> ClockPoint
    ensures { result ≡ after_disable setting }
{
    match setting {
        Ok(n) => ClockPoint::Hcnt(n),
        Err(why) => ClockPoint::Finished(Answer::Refused(why)),
    }
}

// What the Rust does from an access, which read v, up to the next one.
pub fn advance(p: ClockPoint, v: u32) -> ClockPoint
    ensures { result ≡ advance_of p v }
{
    match p {
        ClockPoint::Disable(s) => disabled(s),
        ClockPoint::Hcnt(n) => ClockPoint::Lcnt(n),
        ClockPoint::Lcnt(n) => ClockPoint::Spklen(n),
        ClockPoint::Spklen(n) => ClockPoint::Hold(n),
        ClockPoint::Hold(n) => ClockPoint::SetHold(regs::fields::with_sda_tx_hold(v, n.hold)),
        ClockPoint::SetHold(_) => ClockPoint::Enable,
        ClockPoint::Enable => ClockPoint::Finished(Answer::Accepted),
        ClockPoint::Finished(_) => p,
    }
}

// The steps from a point to the end. `readings` and `log` stay two slices, as the public calls take them. The
// loop stays a `loop`: it ends with the answer, or where the log is full, and no iterator counts its steps.
fn drive(from: ClockPoint, readings: &[u32], log: &mut [u32]) -> Ran
    ensures { final result.reply result.entries result.used log.new [] tt
        ≡ ran machine readings.now (length log.old / 2) from 0 0 log.old
        [] }
{
    let mut recording = Recording::new(readings, log);
    let mut p = from;
    loop {
        match recording.perform(next_access(p)) {
            Ok(v) => p = advance(p, v),
            Err(reply) => return recording.ran(reply),
        }
    }
}

// Sets the bus frequency for a clock, both in Hz.
pub fn set_config(frequency: u32, clk: u32, readings: &[u32], log: &mut [u32]) -> Ran
    ensures { Leaves
        (expected (set_config frequency clk) log.old readings.now [] tt)
        log.old log.new result }
{
    let p = start(frequency, clk);
    drive(p, readings, log)
}

// The rate that the bus gets from a setting, by the counts that `set_config` writes for it, or
// the refusal of `set_config`. No register is needed for it.
pub fn bus_rate(frequency: u32, clk: u32) -> Result<Rate, Refusal>
    ensures { result ≡ rated frequency clk }
{
    let wanted = Wanted::new(frequency, clk)?;
    let n = wanted.setting()?;
    let periods = n.hcnt + n.lcnt;
    Ok(Rate {
        hz: clk / periods,
        remainder: clk % periods,
    })
}
