// Lines of the replay's answers as frames.
#![tactic(auto)]

ghost use Rattle.std.specs.Prelude.{◌≡◌, length};
ghost use Rattle.text_hex.specs.Text.{number_at};
ghost use Rattle.answer_frames.specs.Frames.{mark_frame, word_frame, word_of, frame_of_kind, frame_of};
ghost use Rattle.answer_frames.specs.Frames.{is_answer};

use text_hex::digits::{is_pairs, number};

// An answer frame: a read and a write with offset and value, the
// two marks, a buffer, an answer's number and detail. The number stays a u32: it is what two
// digits of a line say, and the type of refusals has no value for each of the 24.
#[derive(Clone, Copy, PartialEq, Eq)]
pub enum Frame {
    Read(u32, u32),
    Write(u32, u32),
    Pending,
    BlockReset,
    Buffer,
    Answer(u32, u32),
}

// The kind stays a number in these functions, also where the line comes with it: it is what the line's first two
// digits say, any of 256, and each match turns into a frame what is a kind and refuses the rest.
fn mark(kind: u32) -> Option<Frame>
    ensures { result ≡ mark_frame kind }
{
    match kind {
        0x32 => Some(Frame::Pending),
        0x33 => Some(Frame::BlockReset),
        _ => None,
    }
}

fn word(kind: u32, byte: u32, word: u32) -> Option<Frame>
    ensures { result ≡ word_frame kind byte word }
{
    match kind {
        0x30 => Some(Frame::Read(byte, word)),
        0x31 => Some(Frame::Write(byte, word)),
        0x35 if byte < 24 => Some(Frame::Answer(byte, word)),
        _ => None,
    }
}

fn word_in(line: &[u8], kind: u32) -> Option<Frame>
    requires { length line.now ≡ 12 }
    ensures { result ≡ word_of kind (number_at line.now 2 2)
        (number_at line.now 4 8) }
{
    let byte = number(line, 2, 2)?;
    let value = number(line, 4, 8)?;
    word(kind, byte, value)
}

fn of_kind(line: &[u8], kind: u32) -> Option<Frame>
    ensures { result ≡ frame_of_kind line.now kind }
{
    if kind == 0x34 {
        return is_pairs(line).then_some(Frame::Buffer);
    }
    match line.len() {
        2 => mark(kind),
        12 => word_in(line, kind),
        _ => None,
    }
}

// Which frame a line is, if it is one.
#[tactic(auto, unfolding(crate::specs::Frames::frame_of))]
pub fn frame_in(line: &[u8]) -> Option<Frame>
    ensures { result ≡ frame_of line.now }
{
    if line.len() < 2 {
        return None;
    }
    let kind = number(line, 0, 2)?;
    of_kind(line, kind)
}

// With an answer its call ends.
pub fn is_answer(f: Option<Frame>) -> bool
    ensures { result ≡ is_answer f }
{
    matches!(f, Some(Frame::Answer(_, _)))
}
