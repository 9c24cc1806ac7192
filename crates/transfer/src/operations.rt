// What a transfer is to do: the operations that its caller lists, and whether a packet error code follows.
ghost use Rattle.std.specs.Prelude.{◌≡◌, length};

// The direction of an operation.
#[derive(Clone, Copy, PartialEq, Eq)]
pub enum Direction {
    Read,
    Write,
}

// 1 is a write, and any other number a read. The kind stays a number here: callers in C list operations by
// numbers, and every number is answered.
impl From<u8> for Direction {
    ghost use Rattle.transfer.specs.Inner.Operations.{direction_of};

    ghost from_gives = { λ kind direction. direction ≡ direction_of kind };

    fn from(kind: u8) -> Direction {
        if kind == 1 {
            Direction::Write
        } else {
            Direction::Read
        }
    }
}

// And back, as callers in C are told it.
impl From<Direction> for u8 {
    ghost use Rattle.transfer.specs.Inner.Operations.{number};

    ghost from_gives = { λ direction kind. kind ≡ number direction };

    // 0 stays: it is the number of a read, and does not stand for nothing.
    fn from(direction: Direction) -> u8 {
        match direction {
            Direction::Read => 0,
            Direction::Write => 1,
        }
    }
}

// The operations in their order: a kind for each, and its length. They stay two slices, of bytes and of
// 16 bits, since callers in C lend them so, and not every two slices are of one length.
#[derive(Clone, Copy)]
pub struct Operations<'a> {
    pub kinds: &'a [u8],
    pub lengths: &'a [u16],
}

impl Operations<'_> {
    // How many there are.
    pub fn len(&self) -> usize
        ensures { result ≡ length self.now.kinds.now }
    {
        self.kinds.len()
    }

    ghost use Rattle.transfer.specs.Inner.Operations.{listed_at};

    // Direction and length of operation k. Where the lengths are too few, its length is 0.
    #[tactic(auto, unfolding(crate::specs::Inner::Operations::listed_at))]
    pub fn get(&self, k: usize) -> Option<(Direction, u16)>
        ensures { result ≡ listed_at self.now.kinds.now self.now.lengths.now k }
    {
        let kind = *self.kinds.get(k)?;
        let len = self.lengths.get(k).copied().unwrap_or(0);
        Some((Direction::from(kind), len))
    }
}

// The operations of a transfer, and whether a packet error code (SMBus) follows the last one.
#[derive(Clone, Copy)]
pub struct Plan<'a> {
    pub operations: Operations<'a>,
    pub coded: bool,
}
