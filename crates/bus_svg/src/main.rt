// Draws what a call put on the bus: the replay's answer frames on standard input, an SVG picture
// on standard output, and the numbers of the lines that are no answer frames on standard error.
// What is written is what svg_lines's Drawn says of the input, by the contracts of
// `text_stdin::next_line`, `svg_lines::draw_line` and `svg_lines::finish` and the claims
// `every_line` and `every_input` over them; here bytes are only moved. Where no picture was drawn
// because the input could not be read to its end, or it could not be written, standard error says so.
#![tactic(auto)]

ghost use Rattle.std.specs.Prelude.{[], if◌then◌else◌};
ghost use Rattle.text_hex.specs.Appended.{Appended};
ghost use Rattle.text_stdin.specs.Reads.{is_ended_at};
ghost use Rattle.svg_lines.specs.Inner.Said.{last_warning};

use answer_lines::log::Log;
use bus::Sign;
use std::io::Print;
use svg_lines::Kept;
use text_stdin::next_line;
use text_stdin::reads::End;

// A line that was cut is longer than every answer frame.
const LINE: usize = 8195;

// As many signs as a log can make, and room for their picture.
const SIGNS: usize = 32768;

const ROOM: usize = 53000;

// What is kept where the lines end, how the input stands then, and whether all was written. `written` stays
// beside them, and this is no `Result` of the other two: they are told of also where a write failed.
#[derive(Clone, Copy, PartialEq, Eq)]
struct Stopped {
    kept: Kept,
    end: End,
    written: bool,
}

// Writes a text of a line: the picture, or a warning.
fn put(rt: HostRuntime, kept: Kept, text: &[u8]) -> bool {
    if kept.drawn {
        rt.stdout().write_all(text).is_ok()
    } else {
        rt.stderr().write_all(text).is_ok()
    }
}

// Line after line to the picture, or to the end of the input.
#[tactic(auto, using(text_stdin::proofs::EveryLine::held_fits))]
fn draw_all(
    rt: HostRuntime,
    chunk: &mut [u8],
    line: &mut [u8; LINE],
    log: &mut Log,
    places: &mut [Sign; SIGNS],
    out: &mut [u8; ROOM],
) -> Stopped {
    let mut source = text_stdin::start();
    let mut kept = svg_lines::begin(log);
    let mut written = true;
    // A proved loop ends, so it counts its turns up to a number that no run reaches.
    for _ in 0..u64::MAX {
        let l = next_line(rt, source, chunk, line);
        source = l.source;
        let Some(held) = l.held else { break };
        let s = svg_lines::draw_line(kept, line, held, log, places, out);
        kept = s.kept;
        let made = s.made;
        written = put(rt, kept, &out[..made]);
        if kept.drawn || !written {
            break;
        }
    }
    let end = source.end;
    Stopped { kept, end, written }
}

// That nothing was drawn is said at the end of the input only: where it was not read so far, nobody knows. The
// answer stays a number: it is where the text ends, and an empty text ends at 0.
fn finish(kept: Kept, end: End, out: &mut [u8; ROOM]) -> usize
    ensures { Appended out.old 0
        (if is_ended_at end then last_warning kept.drawn else [])
        38 out.new result }
{
    if end == End::Ended {
        svg_lines::finish(kept, out)
    } else {
        0
    }
}

fn main(rt: HostRuntime) {
    let mut chunk = [0u8; 65536];
    let mut line = [0u8; LINE];
    let mut log = Log::new();
    let mut places = [Sign::Stop; SIGNS];
    let mut out = [0u8; ROOM];
    let s = draw_all(rt, &mut chunk, &mut line, &mut log, &mut places, &mut out);
    let made = finish(s.kept, s.end, &mut out);
    let _ = rt.stderr().write_all(&out[..made]);
    // A picture that was written needs no word about the rest of the input, which is not read.
    if !s.kept.drawn || !s.written {
        text_stdin::report::stopped(rt, b"bus_svg", s.written, s.end);
    }
}
