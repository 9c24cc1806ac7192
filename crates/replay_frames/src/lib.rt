// A line of the input as a frame.
#![tactic(auto)]

ghost use Rattle.std.specs.Prelude.{◌≡◌};
ghost use Rattle.text_hex.specs.Appended.{Below, NumberAs};
ghost use Rattle.replay_frames.specs.Frame.{clock_of, master_of, reset_of};
ghost use Rattle.replay_frames.specs.Frame.{slave_of, plain_of, fill_head};
ghost use Rattle.replay_frames.specs.Frame.{slave_head, head_of, width};
ghost use Rattle.replay_frames.specs.Inner.Short.{as_frame};

use replay_calls::Call;
use replay_calls::form::Form;
use text_hex::digits::number;

// The frames that end in bytes.
#[derive(Clone, Copy)]
pub enum Line {
    Write,
    Respond,
    RespondAndFill(u8),
}

// A frame of a fixed length.
#[derive(Clone, Copy)]
pub enum Short {
    Opens(Call),
    Read(u16),
    Reading(u32),
    Run,
}

fn clock(frequency: Option<u32>, clk: Option<u32>) -> Option<Short>
    ensures { as_frame result ≡ clock_of frequency clk }
{
    Some(Short::Opens(Call::Clock(frequency?, clk?)))
}

fn master(form: Option<u32>, address: Option<u32>) -> Option<Short>
    requires { Below 4 address }
    ensures { as_frame result ≡ master_of form address }
{
    let bits = form?;
    let address = address?;
    match Form::try_from(bits) {
        Ok(form) => Some(Short::Opens(Call::Master(form, address as u16))),
        Err(_) => None,
    }
}

fn reset(address: Option<u32>, general: Option<u32>) -> Option<Short>
    requires { Below 4 address }
    ensures { as_frame result ≡ reset_of address general }
{
    let address = address? as u16;
    match general? {
        0 => Some(Short::Opens(Call::Reset(address, false))),
        1 => Some(Short::Opens(Call::Reset(address, true))),
        _ => None,
    }
}

// The slave's call frames that have no bytes.
fn slave(line: &[u8], form: Option<u32>) -> Option<Short>
    ensures { as_frame result ≡ slave_of line.now form }
{
    match (form?, line.len()) {
        (0, 10) => reset(number(line, 4, 4), number(line, 8, 2)),
        (1, 8) => Some(Short::Opens(Call::Listen(number(line, 4, 4)? as u16))),
        (3, 6) => Some(Short::Opens(Call::Fill(number(line, 4, 2)? as u8))),
        _ => None,
    }
}

// The number in 2 digits at `at`, none where the line ends before. `line` and `at` stay two: a frame's
// digits stand at fixed places of its line, and a slice from there on would have to be tested for each
// of them.
fn byte_at(line: &[u8], at: usize) -> Option<u32>
    ensures { NumberAs line.now at 2 result }
{
    let n = line.len();
    if n < at || n - at < 2 {
        return None;
    }
    number(line, at, 2)
}

// The frame that a line is, without its LF, if it is one of a fixed length.
pub fn plain(line: &[u8]) -> Option<Short>
    ensures { as_frame result ≡ plain_of line.now }
{
    match (byte_at(line, 0)?, line.len()) {
        (0x01, 18) => clock(number(line, 2, 8), number(line, 10, 8)),
        (0x02, 8) => master(number(line, 2, 2), number(line, 4, 4)),
        (0x03, _) => slave(line, byte_at(line, 2)),
        (0x11, 6) => Some(Short::Read(number(line, 2, 4)? as u16)),
        (0x20, 10) => Some(Short::Reading(number(line, 2, 8)?)),
        (0xFF, 2) => Some(Short::Run),
        _ => None,
    }
}

fn fill_head(byte: Option<u32>) -> Option<Line>
    requires { Below 2 byte }
    ensures { result ≡ fill_head byte }
{
    Some(Line::RespondAndFill(byte? as u8))
}

fn slave_head(form: Option<u32>, fill: Option<u32>) -> Option<Line>
    requires { Below 2 fill }
    ensures { result ≡ slave_head form fill }
{
    match form? {
        2 => Some(Line::Respond),
        4 => fill_head(fill),
        _ => None,
    }
}

// What a line, or what has come of it, begins with, where that is a frame that ends in bytes.
pub fn head_of(line: &[u8]) -> Option<Line>
    ensures { result ≡ head_of line.now }
{
    match byte_at(line, 0)? {
        0x10 => Some(Line::Write),
        0x03 => slave_head(byte_at(line, 2), byte_at(line, 4)),
        _ => None,
    }
}

// How many bytes of a line stand before those that it ends in.
pub fn width(l: Line) -> usize
    ensures { result ≡ width l }
{
    match l {
        Line::Write => 2,
        Line::Respond => 4,
        Line::RespondAndFill(_) => 6,
    }
}
