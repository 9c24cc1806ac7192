// A whole line of the input, entered.
#![tactic(auto)]

ghost use Rattle.std.specs.Prelude.{length, ◌≤◌};
ghost use Rattle.replay_calls.specs.Inner.Runs.{Roomy, SameSpace};
ghost use Rattle.replay_frames.specs.Frame.{run, frame_of};
ghost use Rattle.replay_frames.specs.Inner.Short.{as_frame};
ghost use Rattle.replay_session.specs.Inner.Bounded.{next_held};
ghost use Rattle.replay_session.specs.Inner.Enter.{arrays_of, session_of, Within, Small, Lent, EnteredAs};
ghost use Rattle.replay_session.specs.Inner.Enter.{CalledAs, SameLists, longest_kept};

use answer_text::entries::push_reply;
use regs::answers::{Answer, Refusal, Reply};
use replay_calls::{Operations, Workspace};
use replay_frames::{Short, head_of, plain, width};
use replay_session::{Lists, Malformed, Open, Session};
use slave::SlaveState;

// The end of a call: it is run, or refused with 20. Says the slave's state after it. `Roomy` stays a
// clause: the room of the text shrinks with each answer, so no field of the workspace could hold the
// fact. `Small` stays one because the methods of a session that ask nothing take every call.
fn run_call(o: Open, s: SlaveState, lists: &Lists, work: &mut Workspace) -> SlaveState
    requires small { Within o.counts }
    requires lent { Lent (arrays_of lists.now) }
    requires room { Roomy work.old }
    ensures same { SameSpace work.old work.new }
    ensures called { CalledAs o s (arrays_of lists.now) work.old.text work.new.text result }
{
    let Some(filled) = o.counts.filled else {
        push_reply(
            &mut work.text,
            Reply::Answered(Answer::Refused(Refusal::OverLimits)),
        );
        return s;
    };
    let operations = Operations {
        kinds: &lists.kinds[..filled.ops],
        lengths: &lists.lengths[..filled.ops],
        bytes: &lists.bytes[..filled.bytes],
        room: filled.reads,
    };
    let readings = &lists.readings[..o.counts.readings];
    replay_run::run(o.call, operations, readings, s, work)
}

// The end of a call, where one is open. `session`, `lists` and `work` stay three: a session goes by
// value from frame to frame, the lists are only looked at here, and the workspace is written to.
fn enter_run(session: Session, lists: &Lists, work: &mut Workspace) -> Result<Session, Malformed>
    requires small { Small session.call }
    requires lent { Lent (arrays_of lists.now) }
    requires room { Roomy work.old }
    ensures same { SameSpace work.old work.new }
    ensures entered { EnteredAs result
        (arrays_of lists.now)
        work.old.text work.new.text
        (next_held (session_of session.call session.slave (arrays_of lists.now))
        run) }
{
    let o = session.call.ok_or(Malformed)?;
    if o.wants.is_complete() {
        let slave = run_call(o, session.slave, lists, work);
        return Ok(Session { call: None, slave });
    }
    Err(Malformed)
}

// A frame of a fixed length.
fn enter(
    f: Short,
    session: Session,
    lists: &mut Lists,
    work: &mut Workspace,
) -> Result<Session, Malformed>
    requires small { Small session.call }
    requires lent { Lent (arrays_of lists.old) }
    requires room { Roomy work.old }
    ensures same { SameLists lists.old lists.new }
    ensures same_space { SameSpace work.old work.new }
    ensures entered { EnteredAs result
        (arrays_of lists.new)
        work.old.text work.new.text
        (next_held (session_of session.call session.slave (arrays_of lists.old))
        (as_frame (Some f))) }
{
    match f {
        Short::Opens(c) => session.enter_call(c),
        Short::Read(m) => session.enter_read(m, lists),
        Short::Reading(w) => session.enter_reading(w, lists),
        Short::Run => enter_run(session, lists, work),
    }
}

// A line of the input, without its LF.
pub fn enter_line(
    line: &[u8],
    session: Session,
    lists: &mut Lists,
    work: &mut Workspace,
) -> Result<Session, Malformed>
    requires small { Small session.call }
    requires lent { Lent (arrays_of lists.old) }
    requires room { Roomy work.old }
    requires few { length line.now ≤ longest_kept }
    ensures same { SameLists lists.old lists.new }
    ensures same_space { SameSpace work.old work.new }
    ensures entered { EnteredAs result
        (arrays_of lists.new)
        work.old.text work.new.text
        (next_held (session_of session.call session.slave (arrays_of lists.old))
        (frame_of line.now)) }
{
    match head_of(line) {
        Some(l) => {
            let w = width(l);
            session.enter_pairs(l, &line[w..], lists)
        }
        None => {
            let f = plain(line).ok_or(Malformed)?;
            enter(f, session, lists, work)
        }
    }
}
