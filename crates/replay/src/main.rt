// Replays calls: frames on standard input, answers on standard output. What is handed to be
// written is what Session says of the input (`every_read`), by the contracts of
// `input::read_all` and `input::at_end`; here bytes are only moved. Where the input could not be
// read to its end, or an answer not be written, standard error says so.
#![tactic(auto)]

mod input; // standard input, read to its end

use replay_calls::Workspace;
use replay_session::Lists;
use replay_state::{Reader, State};
use text_hex::text::Text;
use text_stdin::report;

fn main(rt: HostRuntime) {
    let mut chunk = [0u8; 65536];
    let mut text = [0u8; 8198];
    let mut kinds = [0u8; 64];
    let mut lengths = [0u16; 64];
    let mut bytes = [0u8; 4096];
    let mut readings = [0u32; 8192];
    let mut buffer = [0u8; 4096];
    let mut log = [0u32; 16384];
    let mut out = [0u8; 262144];
    let lists = Lists {
        kinds: &mut kinds,
        lengths: &mut lengths,
        bytes: &mut bytes,
        readings: &mut readings,
    };
    let answers = Text::new(&mut out, 0);
    let work = Workspace {
        buffer: &mut buffer,
        log: &mut log,
        text: answers,
    };
    let mut reader = Reader {
        state: State::start(),
        text: &mut text,
        lists,
        work,
    };
    match input::read_all(rt, &mut chunk, &mut reader) {
        Ok(end) => {
            input::at_end(end, &mut reader);
            let written = !input::fails_to_write(rt, &reader);
            report::stopped(rt, b"replay", written, end);
        }
        Err(_) => report::unwritten(rt, b"replay"),
    }
}
