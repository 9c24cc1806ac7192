// Explains the replay's answers: answer frames on standard input, a line of text for each on
// standard output, and a transfer's bus line before its answer. What is written is what
// explain_lines's Printed says of the input, by the contracts of `text_stdin::next_line` and
// `explain_lines::explain_line` and the claims `every_line` and `every_input` over them; here
// bytes are only moved. Where the input could not be read to its end, or a text not be written,
// standard error says so.
#![tactic(auto)]

use answer_lines::log::Log;
use bus::Sign;
use std::io::Print;
use text_stdin::next_line;
use text_stdin::reads::End;
use text_stdin::report::{unread, unwritten};

// A line that was cut is longer than every answer frame.
const LINE: usize = 8195;

// As many signs as a log can make, and room for their bus line with an answer behind it.
const SIGNS: usize = 32768;

const ROOM: usize = 311821;

// Line after line to the end of the input. Says how the input stands there, or why a text was not written.
#[tactic(auto, using(text_stdin::proofs::EveryLine::held_fits))]
fn explain_all(
    rt: HostRuntime,
    chunk: &mut [u8],
    line: &mut [u8; LINE],
    log: &mut Log,
    places: &mut [Sign; SIGNS],
    out: &mut [u8; ROOM],
) -> Result<End, std::io::Error> {
    let mut source = text_stdin::start();
    let mut call = explain_lines::begin(log);
    // A proved loop ends, so it counts its turns up to a number that no run reaches.
    for _ in 0..u64::MAX {
        let l = next_line(rt, source, chunk, line);
        source = l.source;
        let Some(held) = l.held else { break };
        let s = explain_lines::explain_line(call, line, held, log, places, out);
        call = s.call;
        rt.stdout().write_all(&out[..s.made])?;
    }
    Ok(source.end)
}

fn main(rt: HostRuntime) {
    let mut chunk = [0u8; 65536];
    let mut line = [0u8; LINE];
    let mut log = Log::new();
    let mut places = [Sign::Stop; SIGNS];
    let mut out = [0u8; ROOM];
    match explain_all(rt, &mut chunk, &mut line, &mut log, &mut places, &mut out) {
        Ok(end) => unread(rt, b"explain", end),
        Err(_) => unwritten(rt, b"explain"),
    }
}
