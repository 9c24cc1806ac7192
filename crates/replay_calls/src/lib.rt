// Calls of the replay: what a call is, and what a run left, printed.
#![tactic(auto)]

pub mod form; // which of the master's calls
pub mod outcome; // what a run left, printed

use form::Form;
use text_hex::text::Text;

// A call as its call frame gives it. Its operations stand beside it.
#[derive(Clone, Copy)]
pub enum Call {
    Clock(u32, u32),
    Master(Form, u16),
    Reset(u16, bool),
    Listen(u16),
    Respond,
    Fill(u8),
    RespondAndFill(u8),
}

// The operations of a call, as the master's calls take them (two slices, as in C): kinds and lengths
// beside the bytes to write and the number of bytes to read. The bytes of a slave's response are
// an operation too.
#[derive(Clone, Copy)]
pub struct Operations<'a> {
    pub kinds: &'a [u8],
    pub lengths: &'a [u16],
    pub bytes: &'a [u8],
    pub room: usize,
}

// What the run of a call is lent: the read or listen buffer, the log, and the text of the answers.
// `Roomy` says of it what a run needs; it stays a clause, since the text's room shrinks with each
// answer.
#[derive(Drop)]
pub struct Workspace<'a> {
    pub buffer: &'a mut [u8],
    pub log: &'a mut [u32],
    pub text: Text<'a>,
}

// The largest number of readings that a call may have.
pub const MOST_READINGS: usize = 8192;

// The bytes of the largest answer to a call.
pub const MOST_TEXT: usize = 114704;
