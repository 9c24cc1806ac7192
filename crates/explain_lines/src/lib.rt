// The text that explain prints of a line, after the lines before it. What is kept
// from line to line comes in by value and goes back; the buffers are lent.
#![tactic(auto)]

ghost use Rattle.std.specs.Prelude.{◌≡◌, ◌++◌, ◌+◌, ◌≤◌, length, take};
ghost use Rattle.text_hex.specs.Appended.{Appended};
ghost use Rattle.answer_lines.specs.Lines.{number_after};
ghost use Rattle.explain_lines.specs.Printed.{own_text, bus_text, LINE_ROOM};
ghost use Rattle.explain_lines.specs.Inner.Said.{closed_call, start_call, PLACES, BUS_ROOM};
ghost use Rattle.explain_lines.specs.Inner.Said.{BegunAs, Lent, SaidAs};

use answer_frames::{frame_in, is_answer};
use answer_lines::log::Log;
use answer_lines::{no_frame, number_after, push_warning};
use bus::Sign;
use explain_beside::beside::tell;
use explain_beside::transfer::{Transfer, after};
use explain_bus::line::{ROOM, bus_line};

// How many lines came, and what stands before the next frame of the open call.
#[derive(Clone, Copy)]
pub struct Call {
    pub lines: u64,
    pub transfer: Option<Transfer>,
}

// What is kept behind a line, and how much of the buffer its text fills. That stays a number: the buffer is the
// caller's, who has it, and a slice of it here would lend it beyond the call.
#[derive(Clone, Copy)]
pub struct Said {
    pub call: Call,
    pub made: usize,
}

// Before the first line, where the log is empty; `begin` empties it.
pub fn start() -> Call
    ensures { result ≡ start_call }
{
    Call::closed(0)
}

// Before the first line of an input, whatever the log before it left behind: that is forgotten.
pub fn begin(before: &mut Log) -> Call
    ensures { BegunAs before.new result }
{
    before.clear();
    start()
}

impl Call {
    // Behind so many lines, with no call open.
    fn closed(lines: u64) -> Call
        ensures { result ≡ closed_call lines }
    {
        Call {
            lines,
            transfer: None,
        }
    }

    // The next line's own text, or that it is no answer frame.
    fn push_own(self, line: &[u8], out: &mut [u8]) -> usize
        requires { LINE_ROOM ≤ length out.old }
        ensures { Appended out.old 0
            (own_text (number_after self.lines) self.transfer line.now)
            (length out.old) out.new result }
    {
        if no_frame(line) {
            return push_warning(out, number_after(self.lines));
        }
        tell(self.transfer, line, out)
    }

    // An answer's text behind the bus line of its call. The places stay a slice, here and below, of at least as
    // many signs as a log can make: an array would ask callers for exactly as many.
    fn push_answer(self, line: &[u8], log: &Log, places: &mut [Sign], out: &mut [u8]) -> usize
        requires signs { PLACES ≤ length places.old }
        requires room { BUS_ROOM + LINE_ROOM ≤ length out.old }
        ensures { Appended out.old 0
            (bus_text log.now ++ own_text (number_after self.lines) self.transfer line.now)
            (length out.old) out.new result }
    {
        let bus_end = push_bus(log, places, out);
        bus_end + self.push_own(line, &mut out[bus_end..])
    }
}

// The bus line of a log, in the first bytes of the buffer.
fn push_bus(log: &Log, places: &mut [Sign], out: &mut [u8]) -> usize
    requires signs { PLACES ≤ length places.old }
    requires room { BUS_ROOM ≤ length out.old }
    ensures { Appended out.old 0 (bus_text log.now) BUS_ROOM out.new result }
{
    bus_line(log.words(), places, &mut out[..ROOM])
}

// The whole text of a line, which fills `held` bytes of its buffer: before an answer its call's
// bus line, and with it the call ends. text and held stay two parameters: the buffer is lent whole because its
// length shows that a line that was cut is longer than every answer frame.
pub fn explain_line(
    call: Call,
    text: &[u8],
    held: usize,
    log: &mut Log,
    places: &mut [Sign],
    out: &mut [u8],
) -> Said
    requires { Lent text.now held places.old out.old }
    ensures { SaidAs call log.old
        (take held text.now)
        log.new out.new result }
{
    let line = &text[..held];
    let lines = number_after(call.lines);
    if is_answer(frame_in(line)) {
        let made = call.push_answer(line, log, places, out);
        log.clear();
        let call = Call::closed(lines);
        return Said { call, made };
    }
    let made = call.push_own(line, out);
    log.keep(line);
    let transfer = after(call.transfer, line);
    let call = Call { lines, transfer };
    Said { call, made }
}
