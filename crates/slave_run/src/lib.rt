// The slave's machine run over a list of readings, and any call by its request,
// with the state by value. The call that the state is lent to is in `i2c_slave`.
#![tactic(auto)]

ghost use Rattle.std.specs.Prelude.{◌≡◌, ◌/◌, length};
ghost use Rattle.regs.specs.Inner.Machine.{final, ran};
ghost use Rattle.regs.specs.Log.{LeavesAll};
ghost use Rattle.slave_steps.specs.Inner.Machine.{machine};
ghost use Rattle.slave_run.specs.Requests.{left_by};
ghost use Rattle.slave_run.specs.Inner.Starts.{started};

use regs::access::{Ran, Recording};
use slave::SlaveState;
use slave_steps::Slave;

// The five calls: the address and whether general calls are heard, or the fill
// byte. The bytes of a response and the buffer to listen into are lent beside it.
#[derive(Clone, Copy)]
pub enum Request {
    Reset(u16, bool),
    Listen,
    RespondToRead,
    RespondTillStop(u8),
    RespondAndFill(u8),
}

// What a call by value leaves beside the log and the buffer.
#[derive(Clone, Copy)]
pub struct Left {
    pub state: SlaveState,
    pub ran: Ran,
}

// The steps from a point to the end, a burst and an access at a time: `ran` is made of
// the machine's next access and its advance, so a run is what stepping by hand does. It stays a `loop`:
// only the access tells whether the run ends. `readings`, `log`, `bytes` and `buffer` stay apart, as lent.
pub fn run(from: Slave, bytes: &[u8], readings: &[u32], log: &mut [u32], buffer: &mut [u8]) -> Left
    ensures { final result.ran.reply result.ran.entries result.ran.used log.new
        buffer.new result.state
        ≡ ran (machine bytes.now) readings.now (length log.old / 2) from 0 0
        log.old buffer.old }
{
    let mut recording = Recording::new(readings, log);
    let mut p = from;
    loop {
        let point = slave_fast::burst_from(p, bytes, &mut recording, buffer);
        p = p.at_point(point);
        match recording.perform(p.next_access(bytes)) {
            Ok(v) => {
                let moved = p.advance(v);
                regs::access::keep(buffer, moved.store);
                p = moved.slave;
            }
            Err(reply) => {
                return Left {
                    state: p.state,
                    ran: recording.ran(reply),
                };
            }
        }
    }
}

// Where the machine starts, with so many bytes to send and a buffer so long.
fn start(state: SlaveState, request: Request, bytes: usize, buffer: usize) -> Slave
    ensures { result ≡ started state request bytes buffer }
{
    match request {
        Request::Reset(address, general) => Slave::start_reset(state, address, general),
        Request::Listen => Slave::start_listen(state, buffer),
        Request::RespondToRead => Slave::start_respond_to_read(state, bytes),
        Request::RespondTillStop(fill) => Slave::start_respond_till_stop(state, fill),
        Request::RespondAndFill(fill) => Slave::start_respond_and_fill(state, bytes, fill),
    }
}

// Any call, with the state by value.
pub fn call_from(
    state: SlaveState,
    request: Request,
    bytes: &[u8],
    buffer: &mut [u8],
    readings: &[u32],
    log: &mut [u32],
) -> Left
    ensures { LeavesAll
        (left_by request bytes.now buffer.old log.old
        readings.now state)
        log.old log.new buffer.new result.ran result.state }
{
    let s = start(state, request, bytes.len(), buffer.len());
    run(s, bytes, readings, log, buffer)
}
