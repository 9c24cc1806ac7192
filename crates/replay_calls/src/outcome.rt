// What a run left, printed.
ghost use Rattle.std.specs.Prelude.{◌≡◌, ◌++◌, ◌+◌, ◌*◌, ◌≤◌, eqb, length, take, replicate};
ghost use Rattle.regs.specs.Answers.{number};
ghost use Rattle.regs.specs.Log.{decode};
ghost use Rattle.text_hex.specs.Print.{log_text, reply_text};
ghost use Rattle.text_hex.specs.Added.{Room, Added};
ghost use Rattle.replay_calls.specs.Inner.Runs.{shown_if, size_if};

use answer_text::entries::{push_log, push_reply};
use regs::access::Ran;
use regs::answers::{Answer, Refusal, Reply};
use text_hex::text::Text;

// Zeros in all of a buffer.
pub fn clear(buffer: &mut [u8])
    ensures { buffer.new ≡ replicate (length buffer.old) 0 }
{
    buffer.fill(0);
}

// Whether the call was refused as beyond the limits, which is number 20.
fn is_over_limits(reply: Reply) -> bool
    ensures { result ≡ eqb (number reply) 20 }
{
    matches!(reply, Reply::Answered(Answer::Refused(Refusal::OverLimits)))
}

// The buffer, where there is one and the call was not beyond the limits.
fn push_shown(text: &mut Text, reply: Reply, buffer: Option<&[u8]>)
    requires { Room (3 + 2 * size_if buffer) text.old }
    ensures { Added text.old
        (shown_if buffer.entry reply)
        (3 + 2 * size_if buffer.entry)
        text.new }
{
    if let Some(bytes) = buffer {
        if !is_over_limits(reply) {
            text.push_buffer(bytes);
        }
    }
}

// The log, the buffer, the reply. A transfer that lists a read
// has a buffer even where it is empty, and one that lists none has none.
pub fn push_outcome(text: &mut Text, log: &[u32], ran: Ran, buffer: Option<&[u8]>)
    requires { Room (13 * ran.entries + (3 + 2 * size_if buffer + 13)) text.old
        × (ran.entries * 2 ≤ length log.now) }
    ensures { Added text.old
        (log_text (decode (take (ran.entries * 2) log.now))
        ++ (shown_if buffer.entry ran.reply ++ reply_text ran.reply))
        (13 * ran.entries + (3 + 2 * size_if buffer.entry + 13))
        text.new }
{
    push_log(text, log, ran.entries);
    push_shown(text, ran.reply, buffer);
    push_reply(text, ran.reply);
}
