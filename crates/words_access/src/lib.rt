// The access that is next in a transfer held as words, and what it puts
// into the lent buffer. Of the point only what the access shows is decoded.
#![tactic(auto)]

ghost use Rattle.std.specs.Prelude.{◌≡◌, List, ℕ, get_or};
ghost use Rattle.transfer.specs.Inner.Machine.{next_of};
ghost use Rattle.words_points.specs.Held.{store_held};
ghost use Rattle.words.specs.Inner.Words.{transfer_in, held_at};

use regs::access::{Next, Store};
use regs::answers::Answer;
use transfer_access::words::{
    next_abort, next_fill, next_read, next_round, next_setup, next_stop, next_wait, next_write,
    store_read, store_round,
};
use words::{ADDRESS, COUNT, GROUP, INDEX, ROW, WORD, full, half, operation_from, who_from};
use words_points::points::{
    abort_of, fill_of, queue_of, read_of, setup_of, stop_of, wait_of, write_of,
};

// The access at the words' group and row, which are handed over beside the words, so that the compiler
// knows them where a step has just set them. Group and row stay numbers: the words lie in the caller's
// memory, and any numbers are answered.
#[tactic(auto, unfolding(transfer::specs::Inner::Machine::next_at, words_points::specs::Inner::Numbers::point_at, words::specs::Inner::Words::transfer_in, words::specs::Inner::Words::place_in, words::specs::Inner::Words::who_in))]
pub fn access_at(words: &[u64; 20], group: u64, row: u64, bytes: &[u8]) -> Next
    requires { (get_or words.now 0 0 ≡ group)
        × (get_or words.now 1 0 ≡ row) }
    ensures { result ≡ next_of bytes.now (transfer_in words.now) }
{
    match group {
        0 => next_setup(setup_of(row), half(words[ADDRESS])),
        1 => next_abort(abort_of(row, full(words[WORD]))),
        2 => next_read(read_of(row, half(words[INDEX])), operation_from(words)),
        3 => next_write(write_of(row, who_from(words)), operation_from(words), bytes),
        4 => next_round(queue_of(row, who_from(words)), operation_from(words)),
        5 => {
            let p = fill_of(row, half(words[INDEX]), half(words[COUNT]));
            next_fill(p, operation_from(words), bytes)
        }
        6 => next_wait(wait_of(row, full(words[WORD]), who_from(words))),
        7 => next_stop(stop_of(row, who_from(words).failure)),
        _ => Next::Finished(Answer::Accepted),
    }
}

// What an access that read v puts into the lent read buffer. `words` and `v` stay two parameters: the words
// are the caller's, and v is one reading.
pub fn store(words: &[u64; 20], v: u32) -> Store
    ensures { result ≡ store_held (held_at words.now) v }
{
    match words[GROUP] {
        2 => {
            let p = read_of(words[ROW], half(words[INDEX]));
            store_read(p, operation_from(words), v)
        }
        4 => {
            let p = queue_of(words[ROW], who_from(words));
            store_round(p, operation_from(words), v)
        }
        _ => None,
    }
}
