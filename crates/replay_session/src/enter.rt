// What each frame does to the open call.
ghost use Rattle.std.specs.Prelude.{◌≡◌, ◌≤◌};
ghost use Rattle.replay_session.specs.Inner.Enter.{Small, longest_kept, over_of, added_to, counts_of};
ghost use Rattle.replay_session.specs.Inner.Enter.{call_entered, read_entered, taken_by};
ghost use Rattle.replay_session.specs.Inner.Enter.{bytes_entered, reading_entered, SameLists, arrays_of};
ghost use Rattle.replay_session.specs.Inner.Enter.{stored, with_reading};

use super::{Counts, Lists, Malformed, Open, Session, Wants, counts_of};
use replay_calls::Call;
use replay_frames::Line;

impl Session {
    pub fn enter_call(self, c: Call) -> Result<Session, Malformed>
        ensures { result ≡ call_entered c self.call self.slave }
    {
        match self.call {
            Some(_) => Err(Malformed),
            None => Ok(Session {
                call: Some(Open {
                    call: c,
                    wants: Wants::from(c),
                    counts: Counts::none(),
                }),
                ..self
            }),
        }
    }

    // A read operation of m bytes. `Small` stays a clause of the methods that add: `enter_call`,
    // `enter_wide` and `enter_reading` take every open call, and a type that holds the fact would ask
    // it of their callers too.
    pub fn enter_read(self, m: u16, lists: &mut Lists) -> Result<Session, Malformed>
        requires { Small self.call }
        ensures entered { result ≡ read_entered m self.call self.slave }
        ensures same { SameLists lists.old lists.new }
        ensures put { arrays_of lists.new
            ≡ stored (counts_of self.call).filled (arrays_of lists.old) 0 m }
    {
        let n = counts_of(self.call);
        lists.put_operation(n.filled, 0, m);
        let o = self.call.ok_or(Malformed)?;
        let wants = o.wants.after_read().ok_or(Malformed)?;
        let counts = n.added(0, m as usize);
        Ok(Session {
            call: Some(Open { wants, counts, ..o }),
            ..self
        })
    }

    // The open call after a line of bytes, with its counts then, if the line may come now.
    fn taken_by(self, l: Line, counts: Counts) -> Option<Open>
        ensures { result ≡ taken_by l self.call counts }
    {
        match (l, self.call) {
            (Line::Write, Some(o)) => Some(Open {
                wants: o.wants.after_write()?,
                counts,
                ..o
            }),
            (Line::Respond, None) => Some(Open {
                call: Call::Respond,
                wants: Wants::Nothing,
                counts,
            }),
            (Line::RespondAndFill(fill), None) => Some(Open {
                call: Call::RespondAndFill(fill),
                wants: Wants::Nothing,
                counts,
            }),
            _ => None,
        }
    }

    // A line of bytes, with the counts of its call then.
    fn enter_line(self, l: Line, counts: Counts) -> Result<Session, Malformed>
        ensures { result ≡ bytes_entered (taken_by l self.call counts) self.slave }
    {
        let o = self.taken_by(l, counts).ok_or(Malformed)?;
        Ok(Session {
            call: Some(o),
            ..self
        })
    }

    // A line of k bytes, which stand in the write buffer already.
    pub fn enter_bytes(self, l: Line, k: usize, lists: &mut Lists) -> Result<Session, Malformed>
        requires small { Small self.call }
        requires few { k ≤ longest_kept }
        ensures entered { result
            ≡ bytes_entered (taken_by l self.call (added_to (counts_of self.call) k 0)) self.slave }
        ensures same { SameLists lists.old lists.new }
        ensures put { arrays_of lists.new
            ≡ stored (counts_of self.call).filled (arrays_of lists.old) 1 k }
    {
        let n = counts_of(self.call);
        lists.put_operation(n.filled, 1, k as u16);
        self.enter_line(l, n.added(k, 0))
    }

    // A line of more bytes than any call may have.
    pub fn enter_wide(self, l: Line) -> Result<Session, Malformed>
        ensures { result
            ≡ bytes_entered (taken_by l self.call (over_of (counts_of self.call))) self.slave }
    {
        self.enter_line(l, counts_of(self.call).over())
    }

    pub fn enter_reading(self, word: u32, lists: &mut Lists) -> Result<Session, Malformed>
        ensures entered { result ≡ reading_entered self.call self.slave }
        ensures same { SameLists lists.old lists.new }
        ensures put { arrays_of lists.new
            ≡ with_reading (counts_of self.call).readings (arrays_of lists.old) word }
    {
        let n = counts_of(self.call);
        lists.put_reading(n.readings, word);
        let o = self.call.ok_or(Malformed)?;
        if o.wants.is_complete() && n.readings < replay_calls::MOST_READINGS {
            return Ok(Session {
                call: Some(Open {
                    wants: Wants::Nothing,
                    counts: n.one_more(),
                    ..o
                }),
                ..self
            });
        }
        Err(Malformed)
    }
}
