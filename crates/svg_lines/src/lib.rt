// What bus_svg writes of a line, after the lines before it. What is kept from
// line to line comes in by value and goes back; the buffers are lent.
#![tactic(auto)]

ghost use Rattle.std.specs.Prelude.{◌≡◌, ◌≤◌, length, take};
ghost use Rattle.text_hex.specs.Appended.{Appended};
ghost use Rattle.svg_lines.specs.Drawn.{warned};
ghost use Rattle.svg_lines.specs.Inner.Said.{start_kept, PLACES, PICTURE_ROOM, log_picture};
ghost use Rattle.svg_lines.specs.Inner.Said.{BegunAs, Lent, SaidAs, last_warning};

use answer_frames::{frame_in, is_answer};
use answer_lines::log::Log;
use answer_lines::{no_frame, number_after, push_warning};
use bus::Sign;
use text_hex::text::Text;

// How many lines came, and whether the picture was drawn. That stays a bool: lines are counted behind the
// picture too, so no value depends on it.
#[derive(Clone, Copy, PartialEq, Eq)]
pub struct Kept {
    pub lines: u64,
    pub drawn: bool,
}

// What is kept behind a line, and how much of the buffer its text fills. That is the picture,
// for standard output, where the picture was drawn, and else for standard error. How much stays a number: the
// buffer is the caller's, who has it, and a slice of it here would lend it beyond the call.
#[derive(Clone, Copy, PartialEq, Eq)]
pub struct Said {
    pub kept: Kept,
    pub made: usize,
}

// Before the first line, where the log is empty; `begin` empties it.
pub fn start() -> Kept
    ensures { result ≡ start_kept }
{
    Kept {
        lines: 0,
        drawn: false,
    }
}

// Before the first line of an input, whatever the log before it left behind: that is forgotten.
pub fn begin(before: &mut Log) -> Kept
    ensures { BegunAs before.new result }
{
    before.clear();
    start()
}

// The picture of a log.
fn push_picture(log: &Log, places: &mut [Sign], out: &mut [u8]) -> usize
    requires signs { PLACES ≤ length places.old }
    requires room { PICTURE_ROOM ≤ length out.old }
    ensures { Appended out.old 0
        (log_picture log.now)
        (length out.old) out.new result }
{
    svg_picture::picture(log.words(), places, out)
}

// That a line is no answer frame, or nothing. The answer stays a number: it is where the text ends, and an
// empty text ends at 0.
fn push_warned(number: u64, line: &[u8], out: &mut [u8]) -> usize
    requires { 47 ≤ length out.old }
    ensures { Appended out.old 0 (warned number line.now) 47 out.new
        result }
{
    if no_frame(line) {
        push_warning(out, number)
    } else {
        0
    }
}

// What is written of a line, which fills `held` bytes of its buffer: at an answer its call is drawn, and ends;
// behind the picture there is nothing more. text and held stay two parameters: the buffer is lent whole because
// its length shows that a line that was cut is longer than every answer frame.
pub fn draw_line(
    kept: Kept,
    text: &[u8],
    held: usize,
    log: &mut Log,
    places: &mut [Sign],
    out: &mut [u8],
) -> Said
    requires { Lent text.now held places.old out.old }
    ensures { SaidAs kept log.old
        (take held text.now)
        log.new out.new result }
{
    let lines = number_after(kept.lines);
    if kept.drawn {
        let kept = Kept { lines, drawn: true };
        return Said { kept, made: 0 };
    }
    let line = &text[..held];
    if is_answer(frame_in(line)) {
        let made = push_picture(log, places, out);
        log.clear();
        let drawn = made > 0;
        let kept = Kept { lines, drawn };
        return Said { kept, made };
    }
    let made = push_warned(lines, line, out);
    log.keep(line);
    let kept = Kept {
        lines,
        drawn: false,
    };
    Said { kept, made }
}

// At the end of the input: that nothing was drawn, if so.
#[tactic(auto, using(text_hex::proofs::Adding::no_text), unfolding(crate::specs::Drawn::nothing_drawn))]
pub fn finish(kept: Kept, out: &mut [u8]) -> usize
    requires { 38 ≤ length out.old }
    ensures { Appended out.old 0 (last_warning kept.drawn) 38 out.new result }
{
    let mut text = Text::new(out, 0);
    if !kept.drawn {
        text.push_text(b"no whole call put anything on the bus\n");
    }
    text.at
}
