// The frequent steps of a transfer, made on its words: nothing is decoded, and
// only words that change are stored. What is not frequent is left as it is.
// Group, row and kind stay numbers, read and stored, since programs in C keep the words. The fact of the
// group that a word holds stays a `requires` of each module's steps: it is another number in each. `words`
// and `v` stay two parameters: the words are lent and changed, and v is one reading.
#![tactic(auto)]

mod aborts; // behind fn read_and_clear_abort_reason
mod read_async; // by rounds over the FIFO
mod read_blocking; // byte by byte
mod write_async; // by places in the FIFO
mod write_blocking; // byte by byte

ghost use Rattle.std.specs.Prelude.{◌≡◌};
ghost use Rattle.words_steps.specs.Inner.InPlace.{InPlace, group_at, row_at};

use words::GROUP;

// The point that a step led to.
#[derive(Clone, Copy)]
pub enum Reached {
    // A look for an abort.
    Source,
    // In a blocking read.
    Room,
    Ask,
    ReadLevel,
    Take,
    // In a blocking write.
    Send,
    Empty,
    // In an async read.
    Capacity,
    Queued,
    Level,
    Fetch,
    // In an async write.
    Free,
    Fill,
    Full,
}

impl Reached {
    // The group of the point, as the words keep it.
    pub fn group(self) -> u64
        ensures { result ≡ group_at self }
    {
        match self {
            Reached::Source => 1,
            Reached::Room | Reached::Ask | Reached::ReadLevel | Reached::Take => 2,
            Reached::Send | Reached::Empty => 3,
            Reached::Capacity | Reached::Queued | Reached::Level | Reached::Fetch => 4,
            Reached::Free | Reached::Fill | Reached::Full => 5,
        }
    }

    // The point's row in its group. 0 stays: it is the number of the first row, and does not stand for nothing.
    pub fn row(self) -> u64
        ensures { result ≡ row_at self }
    {
        match self {
            Reached::Source => 0,
            Reached::Room | Reached::Send | Reached::Capacity | Reached::Free => 0,
            Reached::Ask | Reached::Empty | Reached::Queued | Reached::Fill => 1,
            Reached::ReadLevel | Reached::Level | Reached::Full => 2,
            Reached::Take | Reached::Fetch => 3,
        }
    }
}

// Makes the step after an access that read v, where it is a
// frequent one, and tells the point that it led to.
pub fn step(words: &mut [u64; 20], v: u32) -> Option<Reached>
    ensures { InPlace words.old v result words.new }
{
    match words[GROUP] {
        1 => aborts::step(words, v),
        2 => read_blocking::step(words, v),
        3 => write_blocking::step(words, v),
        4 => read_async::step(words, v),
        5 => write_async::step(words, v),
        _ => None,
    }
}
