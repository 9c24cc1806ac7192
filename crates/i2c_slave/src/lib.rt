// The slave driver: one call to which the state is lent, a thin wrapper over the call by
// value of `slave_run`. Above it stand the five calls in the Rust's names: the state comes
// and goes by value, and each lends it to that call, so every program runs the lent form.
#![tactic(auto)]

ghost use Rattle.std.specs.Prelude.{[], length};
ghost use Rattle.regs.specs.Log.{LeavesState, LeavesAll, expected};
ghost use Rattle.slave.specs.I2cSlave.{reset_call, listen_call, respond_to_read_call, respond_till_stop_call};
ghost use Rattle.slave.specs.I2cSlave.{respond_and_fill_call};
ghost use Rattle.slave_run.specs.Requests.{left_by};

use regs::access::Ran;
pub use slave::SlaveState;
pub use slave_run::{Left, Request};

// Any call: the state is lent, and updated there. `request`, `state`, `fill`, `bytes`, `buffer`, `readings`
// and `log` stay parameters of their own in this file: the Rust has the first of them so, and C lends
// each slice by itself.
pub fn call(
    s: &mut SlaveState,
    request: Request,
    bytes: &[u8],
    buffer: &mut [u8],
    readings: &[u32],
    log: &mut [u32],
) -> Ran
    ensures { LeavesAll
        (left_by request bytes.now buffer.old log.old
        readings.now s.old)
        log.old log.new buffer.new result s.new }
{
    let n = slave_run::call_from(*s, request, bytes, buffer, readings, log);
    *s = n.state;
    n.ran
}

// Any call, with the state by value: it is lent to `call`.
fn call_by_value(
    state: SlaveState,
    request: Request,
    bytes: &[u8],
    buffer: &mut [u8],
    readings: &[u32],
    log: &mut [u32],
) -> Left
    ensures { LeavesAll
        (left_by request bytes.now buffer.old log.old
        readings.now state)
        log.old log.new buffer.new result.ran result.state }
{
    let mut s = state;
    let ran = call(&mut s, request, bytes, buffer, readings, log);
    Left { state: s, ran }
}

// `reset`: the address, and whether general calls are heard. The five calls in the Rust's names stay
// beside `call_by_value`: one function over `Request` is no plainer, since each promises the program of its
// own call, without the requests' definition.
pub fn reset(
    state: SlaveState,
    address: u16,
    general_call: bool,
    readings: &[u32],
    log: &mut [u32],
) -> Left
    ensures { LeavesState
        (expected (reset_call address general_call) log.old readings.now [] state)
        log.old log.new result.ran result.state }
{
    let request = Request::Reset(address, general_call);
    call_by_value(state, request, b"", &mut [], readings, log)
}

// `listen`, into the buffer.
pub fn listen(state: SlaveState, buffer: &mut [u8], readings: &[u32], log: &mut [u32]) -> Left
    ensures { LeavesAll
        (expected (listen_call (length buffer.old)) log.old readings.now
        buffer.old state)
        log.old log.new buffer.new result.ran result.state }
{
    call_by_value(state, Request::Listen, b"", buffer, readings, log)
}

// `respond_to_read`, with the bytes.
pub fn respond_to_read(state: SlaveState, bytes: &[u8], readings: &[u32], log: &mut [u32]) -> Left
    ensures { LeavesState
        (expected (respond_to_read_call bytes.now) log.old readings.now []
        state)
        log.old log.new result.ran result.state }
{
    call_by_value(state, Request::RespondToRead, bytes, &mut [], readings, log)
}

// `respond_till_stop`, with the fill byte.
pub fn respond_till_stop(state: SlaveState, fill: u8, readings: &[u32], log: &mut [u32]) -> Left
    ensures { LeavesState
        (expected (respond_till_stop_call fill) log.old readings.now [] state)
        log.old log.new result.ran result.state }
{
    let request = Request::RespondTillStop(fill);
    call_by_value(state, request, b"", &mut [], readings, log)
}

// `respond_and_fill`, with the bytes and then the fill byte.
pub fn respond_and_fill(
    state: SlaveState,
    bytes: &[u8],
    fill: u8,
    readings: &[u32],
    log: &mut [u32],
) -> Left
    ensures { LeavesState
        (expected (respond_and_fill_call bytes.now fill) log.old readings.now
        [] state)
        log.old log.new result.ran result.state }
{
    let request = Request::RespondAndFill(fill);
    call_by_value(state, request, bytes, &mut [], readings, log)
}
