// The slave's calls, run and printed.
#![tactic(auto)]

ghost use Rattle.std.specs.Prelude.{◌≡◌, ◌≤◌, drop, length, replicate};
ghost use Rattle.slave.specs.Calls.{program};
ghost use Rattle.slave_run.specs.Requests.{call_of, is_listen};
ghost use Rattle.text_hex.specs.Added.{Room};
ghost use Rattle.replay_calls.specs.Calls.{replayed};
ghost use Rattle.replay_calls.specs.Inner.Runs.{LOG_WORDS, MOST_TEXT, Runs, SameSpace};

use i2c_slave::Request;
use replay_calls::Workspace;
use replay_calls::outcome::{clear, push_outcome};
use slave::SlaveState;

// Only a call that listens has a buffer to show.
fn is_listen(request: Request) -> bool
    ensures { result ≡ is_listen request }
{
    matches!(request, Request::Listen)
}

// Any call, with the bytes of a response, and with so many places to listen into. `s`, `readings` and
// `work` stay three: the state goes in and comes out by value, and one of the other two is read and one
// written to. What is asked of `work` stays clauses: `Roomy` would ask for a buffer of 4,096 bytes, and
// most calls use none.
pub fn call(
    request: Request,
    bytes: &[u8],
    places: usize,
    s: SlaveState,
    readings: &[u32],
    work: &mut Workspace,
) -> SlaveState
    requires few { places ≤ 4096 }
    requires fits { places ≤ length work.old.buffer.now }
    requires log { length work.old.log.now ≡ LOG_WORDS }
    requires text { Room MOST_TEXT work.old.text }
    ensures same { SameSpace work.old work.new }
    ensures ran { Runs (is_listen request)
        (replayed (program (call_of request bytes.now (replicate places 0))) readings.now
        (replicate places 0) s)
        work.old.text work.new.text result }
    ensures kept { drop places work.new.buffer.now ≡ drop places work.old.buffer.now }
{
    let log = &mut *work.log;
    let buffer = &mut work.buffer[..places];
    clear(buffer);
    let mut slave = s;
    let ran = i2c_slave::call(&mut slave, request, bytes, buffer, readings, log);
    push_outcome(
        &mut work.text,
        log,
        ran,
        is_listen(request).then_some(&*buffer),
    );
    slave
}
