// A transfer's point as numbers: each point has a row of them.
// The end keeps the number and the detail of the answer. `kind`, `group` and `row` stay numbers in this
// crate: they are words of the caller's, any number may stand in them, and each is answered and kept.
#![tactic(auto)]

pub mod points; // numbers as points
pub mod rows; // points as numbers

// `Result<(), Error>`: 0 fine, 1 NoAcknowledge, 2 ArbitrationLoss,
// 3 TxNotEmpty with the count, 5 DataNotAcknowledged with the word,
// any other Other with the word. The kind stays a number: any may stand in the caller's word, and is kept.
#[derive(Clone, Copy)]
pub struct Failure {
    pub kind: u64,
    pub count: u16,
    pub word: u32,
}

// Who waits, and for what: a caller of `read_and_clear_abort_reason` or a poll
// (0 a byte read, 1 a byte written, 2 a round, 3 a free place, any other STOP),
// the byte, the words or bytes left, the counts of a round, and what failed.
// The kind stays a number, as that of a failure.
#[derive(Clone, Copy)]
pub struct Who {
    pub kind: u64,
    pub index: u16,
    pub count: u16,
    pub remaining: u16,
    pub queue: u16,
    pub batch: u16,
    pub failure: Failure,
}

// A point: its group and its row there, a word, and who waits. Group 8
// is the end: the row is the answer's number and the word its detail. Both stay numbers, as the kinds do.
#[derive(Clone, Copy)]
pub struct Place {
    pub group: u64,
    pub row: u64,
    pub word: u32,
    pub who: Who,
}
