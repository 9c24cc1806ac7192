// A master transfer driven to its end over recorded readings: its steps, one after the other.
#![tactic(auto)]

ghost use Rattle.std.specs.Prelude.{◌≡◌, ◌/◌, length};
ghost use Rattle.regs.specs.Inner.Machine.{final, ran};
ghost use Rattle.transfer.specs.Inner.Machine.{machine};
ghost use Rattle.transfer_run.specs.Inner.Steps.{Steps};

use regs::access::{Ran, Recording};
use regs::answers::Reply;
use transfer::Transfer;
use transfer::operations::Plan;

// What goes ahead in one loop from here, and one access; or the run ends.
fn step(
    t: Transfer,
    plan: &Plan,
    bytes: &[u8],
    recording: &mut Recording,
    buffer: &mut [u8],
) -> Result<Transfer, Reply>
    ensures { Steps plan.now.coded plan.now.operations.kinds.now plan.now.operations.lengths.now
        bytes.now t recording.old buffer.old recording.new buffer.new result }
{
    let reached = transfer_fast::ahead_from(t, bytes, recording, buffer);
    let s = transfer_steps::moved(t, Ok(reached), plan);
    let v = recording.perform(transfer_access::next_access(s, bytes))?;
    regs::access::keep(buffer, transfer_access::store(s, v));
    Ok(transfer_steps::advance(s, v, plan))
}

// The steps from a transfer to its end. The `loop` stays: a step's reply ends it, and it counts nothing. The
// log stays a slice with no place: this is where the recording begins.
pub fn drive(
    from: Transfer,
    plan: &Plan,
    bytes: &[u8],
    readings: &[u32],
    log: &mut [u32],
    buffer: &mut [u8],
) -> Ran
    ensures { final result.reply result.entries result.used log.new buffer.new tt
        ≡ ran
        (machine plan.now.coded plan.now.operations.kinds.now plan.now.operations.lengths.now
        bytes.now)
        readings.now (length log.old / 2) from 0 0 log.old
        buffer.old }
{
    let mut recording = Recording::new(readings, log);
    let mut t = from;
    loop {
        match step(t, plan, bytes, &mut recording, buffer) {
            Ok(next) => t = next,
            Err(reply) => return recording.ran(reply),
        }
    }
}
