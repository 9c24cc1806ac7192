// The log of a transfer, from its frames.
ghost use Rattle.std.specs.Prelude.{◌≡◌, ◌+◌, ◌≤◌, length};
ghost use Rattle.text_hex.specs.Appended.{Appended};
ghost use Rattle.answer_frames.specs.Frames.{frame_of};
ghost use Rattle.explain_bus.specs.Line.{kept_of, kept};
ghost use Rattle.explain_bus.specs.Inner.Words.{entry_words};

use answer_frames::{Frame, frame_in};

// The two words of the entry that a line adds to a log with so many words.
fn entry(line: &[u8], used: usize) -> Option<[u32; 2]>
    ensures { entry_words result ≡ kept_of used (frame_of line.now) }
{
    match frame_in(line) {
        Some(Frame::Write(offset, w)) if used > 0 || offset % 256 == u32::from(regs::TAR) => {
            Some([0x200 + offset % 256, w])
        }
        _ => None,
    }
}

// Puts an entry behind the log's used words, and says where the log ends.
fn put_entry(log: &mut [u32], used: usize, words: [u32; 2]) -> usize
    requires { used + 2 ≤ length log.old }
    ensures { Appended log.old used words 2 log.new result }
{
    log[used] = words[0];
    log[used + 1] = words[1];
    used + 2
}

// Writes down the entry that a line adds to the log of a transfer, and says where the log ends. `log` with
// `used` stays a pair: the log may be of any length; one of a fixed room is `answer_lines::log::Log`.
#[tactic(auto, using(text_hex::proofs::Appends::nothing), unfolding(crate::specs::Line::kept))]
pub fn keep(line: &[u8], log: &mut [u32], used: usize) -> usize
    ensures { Appended log.old used
        (kept line.now used (length log.old))
        2 log.new result }
{
    if log.len() < 2 || log.len() - 2 < used {
        return used;
    }
    match entry(line, used) {
        None => used,
        Some(words) => put_entry(log, used, words),
    }
}
