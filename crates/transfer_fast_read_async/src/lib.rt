// Bursts of an async read (`read_async_internal`): the accesses of whole rounds in one loop, where
// the readings lead straight on. A round queues as many words as TXFLR has room for, RXFLR has
// them all, TX_ABRT_SOURCE is clear, and the bytes are fetched.
#![tactic(auto)]

ghost use Rattle.std.specs.Prelude.{List, Option, IfSome, ◌≡◌, ℕ, ◌+◌, ◌-◌, ◌<◌, ◌≤◌, length};
ghost use Rattle.regs.specs.Inner.Recording.{room_of};
ghost use Rattle.regs_runs.specs.Inner.Puts.{Grows};
ghost use Rattle.transfer.specs.declared.Point.TheVariants.{ReadAsync};
ghost use Rattle.transfer.specs.declared.RoundPoint.TheVariants.{Capacity};
ghost use Rattle.transfer_fast_blocking.specs.Inner.Bursts.{Bursts, ForAny};
ghost use Rattle.transfer_fast_read_async.specs.Inner.Rounds.{Queued, Fetched, SameRounds};
ghost use Rattle.transfer_fast_read_async.specs.Inner.Rounds.{StraightRound, after_round};

use regs::access::Recording;
use regs::fields::{byte_of, level_of};
use regs_runs::{has, read};
use transfer::{Round, Transfer};
use transfer_access::words::word_of_queue;
use transfer_fast_blocking::{are_within, free};

// The words of a round.
fn queue_words(t: Transfer, queue: u16, words: u16, recording: &mut Recording)
    requires { (0 < words)
        × (words ≤ queue)
        × (recording.old.entries + words ≤ room_of recording.old) }
    ensures { Queued t queue words recording.old recording.new }
{
    for n in 0..words {
        let w = word_of_queue(
            queue - n,
            t.operation.len,
            t.operation.send_stop,
            t.operation.restart,
        );
        recording.put_write(regs::DATA_CMD, w);
    }
}

// The bytes of a round; more remain. That they have their places is asked for once, before the loops.
fn fetch_bytes(
    t: Transfer,
    remaining: u16,
    count: u16,
    recording: &mut Recording,
    buffer: &mut [u8],
)
    requires { (0 < count)
        × (0 < remaining)
        × (remaining + count ≤ t.operation.len)
        × (t.operation.at + t.operation.len ≤ length buffer.old + 1)
        × (recording.old.used + count ≤ length recording.old.readings.now)
        × (recording.old.entries + count ≤ room_of recording.old) }
    ensures { Fetched t remaining count recording.old buffer.old recording.new buffer.new }
{
    let first = t.operation.at + usize::from(t.operation.len - remaining - count);
    for n in 0..count {
        let byte = byte_of(read(recording, regs::DATA_CMD));
        buffer[first + usize::from(n)] = byte;
    }
}

// What a round does that leads straight on: so many words and so many bytes.
#[derive(Clone, Copy)]
struct Plan {
    words: u16,
    count: u16,
}

// The plan of a round, if it leads straight on: the words are there, nothing was
// aborted, bytes remain, and readings and log are long enough.
fn planned(round: Round, recording: &Recording) -> Option<Plan>
    ensures { IfSome result
        (λ (plan : Plan). StraightRound recording.now round plan.words plan.count) }
{
    if !has(recording, 3, 3) {
        return None;
    }
    let filled = u16::from(level_of(recording.readings[recording.used + 1]));
    let source = recording.readings[recording.used + 2];
    let words = round.queue.min(free(recording.readings[recording.used]));
    let count = filled.min(round.remaining);
    let is_straight = 0 < words
        && words <= filled
        && source == 0
        && count < round.remaining
        && has(
            recording,
            usize::from(count) + 3,
            usize::from(words) + usize::from(count) + 3,
        );
    is_straight.then_some(Plan { words, count })
}

// A round that leads straight on, and the round that is next.
fn one_round(
    t: Transfer,
    plan: Plan,
    round: Round,
    recording: &mut Recording,
    buffer: &mut [u8],
) -> Round
    requires { StraightRound recording.old round plan.words plan.count
        × (round.remaining ≤ t.operation.len)
        × (t.operation.at + t.operation.len ≤ length buffer.old + 1) }
    ensures is { result ≡ after_round round plan.words plan.count }
    ensures bursts { ForAny
        (λ (bytes : List ℕ). Bursts (SameRounds t) bytes recording.old buffer.old
        (ReadAsync (Capacity round)) recording.new buffer.new (ReadAsync (Capacity result))) }
    ensures more { Grows recording.old recording.new }
{
    let remaining = round.remaining - plan.count;
    let _room = read(recording, regs::TXFLR);
    queue_words(t, round.queue, plan.words, recording);
    let _filled = read(recording, regs::RXFLR);
    let _source = read(recording, regs::TX_ABRT_SOURCE);
    fetch_bytes(t, remaining, plan.count, recording, buffer);
    Round {
        remaining,
        queue: round.queue - plan.words,
        batch: plan.words,
    }
}

// Round after round from one on, up to the one that is next; the last one is the machine's. It stays
// a `while let`: the plan of a round hangs on the round and the readings that the last one left.
// `t`, `recording` and `buffer` stay apart: a transfer by value, and two things that are lent.
pub fn burst(t: Transfer, from: Round, recording: &mut Recording, buffer: &mut [u8]) -> Round
    ensures { ForAny
        (λ (bytes : List ℕ). Bursts (SameRounds t) bytes recording.old buffer.old
        (ReadAsync (Capacity from)) recording.new buffer.new (ReadAsync (Capacity result))) }
{
    if t.operation.len < from.remaining || !are_within(t, buffer.len()) {
        return from;
    }
    let mut round = from;
    while let Some(plan) = planned(round, recording) {
        round = one_round(t, plan, round, recording, buffer);
    }
    round
}
