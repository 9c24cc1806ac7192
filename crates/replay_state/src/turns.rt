// What a byte of a line, and the end of a line, do to the
// reader's state. A whole line is entered in `replay_step`.
ghost use Rattle.std.specs.Prelude.{◌≡◌, true, false, not, ltb, set};
ghost use Rattle.text_hex.specs.Text.{digit_of};
ghost use Rattle.text_hex.specs.Added.{Room, Added};
ghost use Rattle.replay_session.specs.Session.{refusal, line_after};
ghost use Rattle.replay_state.specs.Inner.Rest.{EndedAs, TurnedTo, KeptAs, LongEndedAs, long_line};
ghost use Rattle.replay_state.specs.Inner.Rest.{RefusalFits, stopped_at};

use super::{LONGEST_KEPT, Part, State, fresh_slave};
use replay_frames::{head_of, width};
use replay_session::{Malformed, Session};
use text_hex::digits::{all_digits, is_digit};
use text_hex::text::Text;

// The number of a malformed line, with the line as its detail. It stays a number: it is the replay's
// own, and `Refusal` has those that the drivers give.
const MALFORMED: u32 = 21;

// A malformed line is answered with its number.
// `line` and `out` stay two parameters, and the room a clause: the text is the workspace's, and fills up.
pub fn refuse(line: u32, out: &mut Text)
    requires { Room 13 out.old }
    ensures { Added out.old (refusal line) 13 out.new }
{
    out.push_answer(MALFORMED, line);
}

pub fn next_line(line: u32) -> u32
    ensures { result ≡ line_after line }
{
    line.saturating_add(1)
}

// A malformed line: it is refused, and nothing more is read.
fn stop(line: u32, out: &mut Text) -> State
    requires { Room 13 out.old }
    ensures { (result ≡ stopped_at line)
        × Added out.old (refusal line) 13 out.new }
{
    refuse(line, out);
    State {
        line,
        part: Part::Stopped,
        session: Session {
            call: None,
            slave: fresh_slave(),
        },
    }
}

pub fn end_line(line: u32, entered: Result<Session, Malformed>, out: &mut Text) -> State
    requires { RefusalFits entered out.old }
    ensures { EndedAs line entered out.old out.new result }
{
    match entered {
        Ok(session) => State {
            line: next_line(line),
            part: Part::Text(0),
            session,
        },
        Err(_) => stop(line, out),
    }
}

// Whether the bytes kept begin a line that may go on: one that ends in bytes, with digits so far.
fn is_long(text: &[u8]) -> bool
    ensures { result ≡ long_line text.now }
{
    match head_of(text) {
        None => false,
        Some(l) => {
            let w = width(l);
            all_digits(&text[w..])
        }
    }
}

impl State {
    // A byte of a line that is longer than what is kept.
    pub fn skip(self, x: u8, odd: bool, out: &mut Text) -> State
        requires { Room 13 out.old }
        ensures { TurnedTo self (Part.Long (not odd)) out.old out.new result
            (ltb (digit_of x) 16) }
    {
        if is_digit(x) {
            return State {
                part: Part::Long(!odd),
                ..self
            };
        }
        stop(self.line, out)
    }

    // A byte of a line of which n bytes are kept. The first that is not kept may make it a long one.
    // n stays beside the text, as the part of the state holds it: the bytes behind it are of an older line.
    pub fn keep(self, x: u8, n: usize, text: &mut [u8; LONGEST_KEPT], out: &mut Text) -> State
        requires { Room 13 out.old }
        ensures { KeptAs self n x text.old out.old out.new result
            × (text.new ≡ set text.old n x) }
    {
        if n < LONGEST_KEPT {
            text[n] = x;
            return State {
                part: Part::Text(n + 1),
                ..self
            };
        }
        if is_long(text) {
            return self.skip(x, false, out);
        }
        stop(self.line, out)
    }

    // The end of a line that is longer than what is kept.
    #[tactic(auto, using(crate::proofs::Steps::fits_any))]
    pub fn end_long(self, odd: bool, text: &[u8], out: &mut Text) -> State
        requires { Room 13 out.old }
        ensures { LongEndedAs odd self text.now out.old out.new result }
    {
        if odd {
            return stop(self.line, out);
        }
        match head_of(text) {
            None => stop(self.line, out),
            Some(l) => end_line(self.line, self.session.enter_wide(l), out),
        }
    }
}
