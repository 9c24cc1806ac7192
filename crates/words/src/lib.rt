// A transfer as 20 words that its caller holds, for callers that cannot hold an enum: C, or Rust
// over the static library. A transfer that has ended keeps the number and the detail of its answer.
#![tactic(auto)]

ghost use Rattle.std.specs.Prelude.{◌≡◌, not, ◌<◌, ◌%◌, ◌^◌, eqb, ltb, length, get_or};
ghost use Rattle.words_points.specs.Held.{held_of};
ghost use Rattle.words.specs.Inner.Words.{mode_at, form_of, who_in, place_in, operation_in};
ghost use Rattle.words.specs.Inner.Words.{transfer_in, held_at};

use transfer::{Mode, Operation, Point, Transfer};
use words_points::{Failure, Place, Who};

// The point: group and row, a word, who waits, the byte, the
// words or bytes left, the counts of a round, and what failed.
pub const GROUP: usize = 0;

pub const ROW: usize = 1;

pub const WORD: usize = 2;

pub const KIND: usize = 3;

pub const INDEX: usize = 4;

pub const COUNT: usize = 5;

pub const REMAINING: usize = 6;

pub const QUEUE: usize = 7;

pub const BATCH: usize = 8;

pub const FAILURE: usize = 9;

pub const FAILURE_COUNT: usize = 10;

pub const FAILURE_WORD: usize = 11;

// The other parts of `transfer::Transfer`. The form is 1 for the
// async mode, and 2 more where a read's first word carries RESTART.
pub const FORM: usize = 12;

pub const SEND_STOP: usize = 13;

pub const ADDRESS: usize = 14;

pub const LEN: usize = 15;

pub const AT: usize = 16;

pub const BEGUN: usize = 17;

pub const READS: usize = 18;

pub const WRITES: usize = 19;

fn length_of(s: &[u64]) -> usize
    ensures { result ≡ length s.now }
{
    s.len()
}

// Proofs want the number of the words, which an array tells where it is lent as a slice.
pub fn sized(words: &[u64; 20])
    ensures { length words.now ≡ 20 }
{
    let _n = length_of(words);
}

fn bit(b: bool) -> u64
    ensures { not (eqb result 0) ≡ b }
{
    if b { 1 } else { 0 }
}

// 8 bits of a word, 16 bits, 32 bits, and a flag. The first three stay apart: each has its own width in its
// contract, and a cast from a word is not generic.
pub fn byte(w: u64) -> u8
    ensures { result ≡ w % 2 ^ 8 }
{
    (w % 256) as u8
}

pub fn half(w: u64) -> u16
    ensures { result ≡ w % 2 ^ 16 }
{
    (w % 65536) as u16
}

pub fn full(w: u64) -> u32
    ensures { result ≡ w % 2 ^ 32 }
{
    (w % 4294967296) as u32
}

pub fn flag(w: u64) -> bool
    ensures { result ≡ not (eqb w 0) }
{
    w != 0
}

// The mode that `queued` tells. It stays a function, as those below: neither a truth value nor `Mode` is a
// type of this crate, so From could not stand here.
#[tactic(auto, unfolding(crate::specs::Inner::Words::mode_at))]
pub fn mode(queued: bool) -> Mode
    ensures { result ≡ mode_at queued }
{
    if queued { Mode::Async } else { Mode::Blocking }
}

// The form of a mode. It stays a function, as `mode`: both parts of it are needed.
#[tactic(auto, unfolding(crate::specs::Inner::Words::form_of))]
fn form(m: Mode, restart: bool) -> u64
    ensures { result ≡ form_of m restart }
{
    match m {
        Mode::Blocking => if restart { 2 } else { 0 },
        Mode::Async => if restart { 3 } else { 1 },
    }
}

// Whether a transfer has ended.
pub fn ended(words: &[u64; 20]) -> bool
    ensures { result ≡ ltb 7 (get_or words.now 0 0) }
{
    7 < words[GROUP]
}

// What the words say. These three stay functions: the words are the caller's array, and what they stand for
// is of other crates, so From could not stand here.
#[tactic(auto, unfolding(crate::specs::Inner::Words::who_in))]
pub fn who_from(words: &[u64; 20]) -> Who
    ensures { result ≡ who_in words.now }
{
    let failure = Failure {
        kind: words[FAILURE],
        count: half(words[FAILURE_COUNT]),
        word: full(words[FAILURE_WORD]),
    };
    Who {
        kind: words[KIND],
        index: half(words[INDEX]),
        count: half(words[COUNT]),
        remaining: half(words[REMAINING]),
        queue: half(words[QUEUE]),
        batch: half(words[BATCH]),
        failure,
    }
}

// The place that words stand for. It stays a function, as `who_from`.
#[tactic(auto, unfolding(crate::specs::Inner::Words::place_in))]
pub fn place_from(words: &[u64; 20]) -> Place
    ensures { result ≡ place_in words.now }
{
    let who = who_from(words);
    Place {
        group: words[GROUP],
        row: words[ROW],
        word: full(words[WORD]),
        who,
    }
}

// The operation that words stand for.
pub fn operation_from(words: &[u64; 20]) -> Operation
    ensures { result ≡ operation_in words.now }
{
    Operation {
        at: words[AT] as usize,
        len: half(words[LEN]),
        restart: 1 < words[FORM],
        send_stop: flag(words[SEND_STOP]),
    }
}

// The transfer that words stand for, of one that has not ended. It stays a function, as `who_from`.
#[tactic(auto, unfolding(crate::specs::Inner::Words::transfer_in))]
pub fn transfer_from(words: &[u64; 20]) -> Transfer
    ensures { result ≡ transfer_in words.now }
{
    Transfer {
        point: Point::from(place_from(words)),
        mode: mode(words[FORM] % 2 == 1),
        address: half(words[ADDRESS]),
        operation: operation_from(words),
        begun: words[BEGUN] as usize,
        reads: words[READS] as usize,
        writes: words[WRITES] as usize,
    }
}

// Puts a transfer into the words.
pub fn put(words: &mut [u64; 20], t: Transfer)
    ensures { held_at words.new ≡ held_of t }
{
    sized(words);
    let operation = t.operation;
    let place = Place::from(t.point);
    let who = place.who;
    let failure = who.failure;
    words[GROUP] = place.group;
    words[ROW] = place.row;
    words[WORD] = u64::from(place.word);
    words[KIND] = who.kind;
    words[INDEX] = u64::from(who.index);
    words[COUNT] = u64::from(who.count);
    words[REMAINING] = u64::from(who.remaining);
    words[QUEUE] = u64::from(who.queue);
    words[BATCH] = u64::from(who.batch);
    words[FAILURE] = failure.kind;
    words[FAILURE_COUNT] = u64::from(failure.count);
    words[FAILURE_WORD] = u64::from(failure.word);
    words[FORM] = form(t.mode, operation.restart);
    words[SEND_STOP] = bit(operation.send_stop);
    words[ADDRESS] = u64::from(t.address);
    words[LEN] = u64::from(operation.len);
    words[AT] = operation.at as u64;
    words[BEGUN] = t.begun as u64;
    words[READS] = t.reads as u64;
    words[WRITES] = t.writes as u64;
}
