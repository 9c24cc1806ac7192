// Any call: it runs its driver on the readings, and prints the log, the read or listen buffer, and the
// reply.
#![tactic(auto)]

ghost use Rattle.std.specs.Prelude.{◌≡◌, true, false, [], ◌≤◌};
ghost use Rattle.clock_setting.specs.SetConfig.{set_config};
ghost use Rattle.text_hex.specs.Added.{Added};
ghost use Rattle.replay_calls.specs.Calls.{replayed, outcome_text};
ghost use Rattle.replay_calls.specs.Inner.Runs.{MOST_TEXT, Runs, listened, RanInto};
ghost use Rattle.replay_calls.specs.Inner.Runs.{listed_of, Roomy, SameSpace};

use answer_text::entries::push_reply;
use i2c_slave::Request;
use regs::answers::{Answer, Refusal, Reply};
use replay_calls::outcome::push_outcome;
use replay_calls::{Call, Operations, Workspace};
use slave::SlaveState;

// A listen buffer above 4,096 bytes is refused with 20. `readings`, `s` and `work` stay three: the
// first is read, the state goes in and comes out by value, and the workspace is written to.
fn listen(n: u16, s: SlaveState, readings: &[u32], work: &mut Workspace) -> SlaveState
    requires { Roomy work.old }
    ensures same { SameSpace work.old work.new }
    ensures ran { Runs true (listened n readings.now s) work.old.text work.new.text result }
{
    let places = n as usize;
    if 4096 < places {
        push_reply(
            &mut work.text,
            Reply::Answered(Answer::Refused(Refusal::OverLimits)),
        );
        return s;
    }
    replay_run_slave::call(Request::Listen, b"", places, s, readings, work)
}

fn set_config(frequency: u32, clk: u32, readings: &[u32], work: &mut Workspace)
    requires { Roomy work.old }
    ensures same { SameSpace work.old work.new }
    ensures ran { Added work.old.text
        (outcome_text false (replayed (set_config frequency clk) readings.now [] tt))
        MOST_TEXT work.new.text }
    ensures kept { work.new.buffer.now ≡ work.old.buffer.now }
{
    let log = &mut *work.log;
    let ran = clock::set_config(frequency, clk, readings, log);
    push_outcome(&mut work.text, log, ran, None);
}

// Runs a call that is within the limits, and says the slave's state after it. `operations` and
// `readings` stay two: of the calls beneath only a transfer has operations.
pub fn run(
    call: Call,
    operations: Operations,
    readings: &[u32],
    s: SlaveState,
    work: &mut Workspace,
) -> SlaveState
    requires few { operations.room ≤ 4096 }
    requires room { Roomy work.old }
    ensures same { SameSpace work.old work.new }
    ensures ran { RanInto call
        (listed_of operations.entry)
        readings.now s work.old.text work.new.text result }
{
    let bytes = operations.bytes;
    let request = match call {
        Call::Clock(frequency, clk) => {
            set_config(frequency, clk, readings, work);
            return s;
        }
        Call::Master(form, address) => {
            replay_run_master::transfer(form, address, operations, readings, work);
            return s;
        }
        Call::Listen(n) => {
            return listen(n, s, readings, work);
        }
        Call::Reset(address, general) => Request::Reset(address, general),
        Call::Respond => Request::RespondToRead,
        Call::Fill(fill) => Request::RespondTillStop(fill),
        Call::RespondAndFill(fill) => Request::RespondAndFill(fill),
    };
    replay_run_slave::call(request, bytes, 0, s, readings, work)
}
