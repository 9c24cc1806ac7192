// A transfer was run with 0 for its packet error code. By the last access to DATA_CMD
// in its log the code is then put there, or the byte that came is tested against it.
ghost use Rattle.std.specs.Prelude.{not, ◌&&◌, ◌≡◌, ◌+◌, ◌*◌, ◌≤◌, ◌<◌, eqb, length};
ghost use Rattle.regs.specs.Fields.{cmd, stop};
ghost use Rattle.transfer_code.specs.Inner.Coding.{code_of_message};
ghost use Rattle.transfer_code.specs.Inner.Settling.{last_at, IsWithin, is_accepted, wrong, tested_ran};
ghost use Rattle.transfer_code.specs.Inner.Settling.{with_code_at, Settled};

use super::code::Message;
use regs::access::Ran;
use regs::answers::{Answer, Refusal, Reply};
use regs::fields::{byte_of, has_stop, is_read, word_of};

// The first word of a log entry that reads DATA_CMD, and of one that writes it.
const GOT: u32 = 0x100 + regs::DATA_CMD as u32;

const PUT: u32 = 0x200 + regs::DATA_CMD as u32;

// An access to DATA_CMD: the entry that reads it or writes it.
#[derive(Clone, Copy)]
pub enum DataAt {
    Got(usize),
    Put(usize),
}

// Searches the entries of a log from the last one back. `entries` stays beside the log: what is lent is all
// the caller's room, and the run's own entries are its front.
fn last_data(log: &[u32], entries: usize) -> Option<DataAt>
    requires { entries * 2 ≤ length log.now }
    ensures last { result ≡ last_at log.now entries }
    ensures within { IsWithin entries result }
{
    for k in (0..entries).rev() {
        let head = log[k * 2];
        if head == GOT {
            return Some(DataAt::Got(k));
        }
        if head == PUT {
            return Some(DataAt::Put(k));
        }
    }
    None
}

fn accepts(reply: Reply) -> bool
    ensures { result ≡ is_accepted reply }
{
    matches!(reply, Reply::Answered(Answer::Accepted))
}

// The run with the answer 22.
fn refuse(ran: Ran) -> Ran
    ensures { result ≡ wrong ran }
{
    Ran {
        reply: Reply::Answered(Answer::Refused(Refusal::WrongPacketErrorCode)),
        ..ran
    }
}

// Tests a byte that came as the code. What is not accepted stays as it is: 22 comes after every other answer.
fn test(ran: Ran, message: &Message, byte: u8) -> Ran
    ensures { result ≡ tested_ran (eqb byte (code_of_message message.now)) ran }
{
    if accepts(ran.reply) && byte != message.code() {
        refuse(ran)
    } else {
        ran
    }
}

// Whether a word for DATA_CMD is the last one of a write.
fn closes(w: u32) -> bool
    ensures { result ≡ (stop w && not (cmd w)) }
{
    has_stop(w) && !is_read(w)
}

// Puts the code into entry k of a log, where that writes the last word of a write. The place stays beside the
// log, since what is promised is of the whole log: nothing else in it changes.
fn put(message: &Message, log: &mut [u32], k: usize)
    requires { k * 2 + 1 < length log.old }
    ensures { log.new ≡ with_code_at (code_of_message message.now) log.old k }
{
    let at = k * 2 + 1;
    if closes(log[at]) {
        log[at] = word_of(message.code(), false, true, false);
    }
}

// Finishes a run that was made with 0 for the code: puts the code into its log, or tests the byte that came.
pub fn settle(ran: Ran, message: &Message, log: &mut [u32]) -> Ran
    requires { ran.entries * 2 ≤ length log.old }
    ensures { Settled (code_of_message message.now) ran log.old result log.new }
{
    match last_data(log, ran.entries) {
        None => ran,
        Some(DataAt::Got(k)) => test(ran, message, byte_of(log[k * 2 + 1])),
        Some(DataAt::Put(k)) => {
            put(message, log, k);
            ran
        }
    }
}
