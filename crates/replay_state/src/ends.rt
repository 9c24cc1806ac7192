// What the reader makes of a whole input, however it is cut: the state before its first byte,
// and what is printed at its end. The claim over `replay_feed` is in proofs/EverySplit.antt.
ghost use Rattle.std.specs.Prelude.{◌≡◌};
ghost use Rattle.text_hex.specs.Added.{Room, Added};
ghost use Rattle.replay_state.specs.Inner.Rest.{stopped_of, begun_of, end_text};
ghost use Rattle.replay_state.specs.Inner.Fed.{start_state};

use super::turns::refuse;
use super::{Part, State, fresh_slave};
use replay_session::Session;
use text_hex::text::Text;

impl State {
    // The reader before the first byte.
    pub fn start() -> State
        ensures { result ≡ start_state }
    {
        State {
            line: 1,
            part: Part::Text(0),
            session: Session {
                call: None,
                slave: fresh_slave(),
            },
        }
    }

    // Whether nothing more is read.
    pub fn is_stopped(self) -> bool
        ensures { result ≡ stopped_of self.part }
    {
        matches!(self.part, Part::Stopped)
    }

    // Whether the input so far ends inside a line.
    pub fn is_begun(self) -> bool
        ensures { result ≡ begun_of self.part }
    {
        !matches!(self.part, Part::Stopped | Part::Text(0))
    }

    // The end of the input after whole lines.
    pub fn end_input(self, out: &mut Text)
        requires { Room 13 out.old }
        ensures { Added out.old
            (end_text (stopped_of self.part) self.session.call self.line)
            13 out.new }
    {
        if !self.is_stopped() && self.session.call.is_some() {
            refuse(self.line, out);
        }
    }
}
