// One access: which is next, performed against the readings and the log,
// what is done to the lent buffer with it, and its entry in the log.
ghost use Rattle.std.specs.Prelude.{◌≡◌, ◌+◌, ◌/◌, ◌<◌, ltb, length};
ghost use Rattle.regs.specs.Log.{entry};
ghost use Rattle.regs.specs.Inner.Machine.{head_of, value_of, taken, at_full};
ghost use Rattle.regs.specs.Inner.Recording.{Enters, Performs, room_of};
ghost use Rattle.regs.specs.Steps.{stored_in};

use super::answers::{Answer, Reply};
use super::fields::byte_of;

// What a machine does next: read a register, write it, make a mark, or nothing more. Register and mark stay
// numbers, here and in an entry: any two words of a log are an entry, whatever number they hold.
#[derive(Clone, Copy)]
pub enum Next {
    Read(u8),
    Write(u8, u32),
    Mark(u8),
    Finished(Answer),
}

// What is done to the lent buffer with an access: a byte is put at an index, or nothing.
pub type Store = Option<(usize, u8)>;

// An entry of the log: a register's offset with the word read or written, or a mark. They stay numbers.
#[derive(Clone, Copy)]
pub enum Entry {
    Read(u8, u32),
    Write(u8, u32),
    Marked(u8),
}

// What a run leaves beside the log, the buffer and the state. How many entries and readings it used
// stay numbers beside the reply: log and readings are the caller's, who is told them however it ended.
#[derive(Clone, Copy)]
pub struct Ran {
    pub reply: Reply,
    pub entries: usize,
    pub used: usize,
}

impl Next {
    // The first word of the access's entry in the log.
    fn head(self) -> u32
        ensures { result ≡ head_of self }
    {
        match self {
            Next::Read(register) => 0x100 + u32::from(register),
            Next::Write(register, _) => 0x200 + u32::from(register),
            Next::Mark(mark) => 0x300 + u32::from(mark),
            Next::Finished(_) => 0,
        }
    }

    // The second word, where v was read.
    fn value(self, v: u32) -> u32
        ensures { result ≡ value_of self v }
    {
        match self {
            Next::Read(_) => v,
            Next::Write(_, word) => word,
            Next::Mark(_) | Next::Finished(_) => 0,
        }
    }

    // The reply where the log is full.
    fn refused(self) -> Reply
        ensures { result ≡ at_full self }
    {
        match self {
            Next::Finished(answer) => Reply::Answered(answer),
            Next::Read(_) | Next::Write(_, _) | Next::Mark(_) => Reply::LogFull,
        }
    }
}

// What a run is given and what it has made so far: the readings, with how many
// of them are used, and the log, with how many entries are in it.
#[derive(Drop)]
pub struct Recording<'a> {
    pub readings: &'a [u32],
    pub used: usize,
    pub log: &'a mut [u32],
    pub entries: usize,
}

impl<'a> Recording<'a> {
    // Before the first access.
    pub fn new(readings: &'a [u32], log: &'a mut [u32]) -> Recording<'a>
        ensures loan { result.log.ghost_name ≡ log.entry.ghost_name }
        ensures readings { result.readings.now ≡ readings.now }
        ensures used { result.used ≡ 0 }
        ensures log { result.log.now ≡ log.old }
        ensures entries { result.entries ≡ 0 }
    {
        Recording {
            readings,
            used: 0,
            log,
            entries: 0,
        }
    }

    // What a run leaves that ends with a reply here. It stays a method, and no From: the reply is no part
    // of `self`.
    pub fn ran(&self, reply: Reply) -> Ran
        ensures reply { result.reply ≡ reply }
        ensures entries { result.entries ≡ self.now.entries }
        ensures used { result.used ≡ self.now.used }
    {
        Ran {
            reply,
            entries: self.entries,
            used: self.used,
        }
    }

    // Whether a reading is left.
    fn has_reading(&self) -> bool
        ensures { result ≡ ltb self.now.used (length self.now.readings.now) }
    {
        self.used < self.readings.len()
    }

    // Whether the log has room for one more entry.
    fn has_room(&self) -> bool
        ensures { result ≡ ltb self.now.entries (room_of self.now) }
    {
        self.entries < self.log.len() / 2
    }

    // The reading that an access takes, 0 where it takes none, and the readings used then.
    fn taken(&self, next: Next) -> Result<(u32, usize), Reply>
        ensures { result ≡ taken self.now.readings.now self.now.used next }
    {
        match next {
            Next::Read(_) if self.has_reading() => Ok((self.readings[self.used], self.used + 1)),
            Next::Read(_) => Err(Reply::OutOfReadings),
            Next::Write(_, _) | Next::Mark(_) => Ok((0, self.used)),
            Next::Finished(answer) => Err(Reply::Answered(answer)),
        }
    }

    // Puts an entry behind those that there are. The room for it stays a clause of this and of the three
    // below: callers ask once for all the entries of a byte or of a poll (`regs_runs::has`).
    fn put(&mut self, head: u32, value: u32)
        requires { self.old.entries < room_of self.old }
        ensures { Enters self.old head value self.new }
    {
        let at = self.entries * 2;
        self.log[at] = head;
        self.log[at + 1] = value;
        self.entries += 1;
    }

    // A register was read. The three stay beside each other: with one function of an `Entry` every
    // caller would write `put(Entry::Read(register, v))`, which is longer and says no more.
    pub fn put_read(&mut self, register: u8, v: u32)
        requires { self.old.entries < room_of self.old }
        ensures { Enters self.old (0x100 + register) v self.new }
    {
        self.put(0x100 + u32::from(register), v);
    }

    // A register was written.
    pub fn put_write(&mut self, register: u8, v: u32)
        requires { self.old.entries < room_of self.old }
        ensures { Enters self.old (0x200 + register) v self.new }
    {
        self.put(0x200 + u32::from(register), v);
    }

    // A mark was made.
    pub fn put_mark(&mut self, mark: u8)
        requires { self.old.entries < room_of self.old }
        ensures { Enters self.old (0x300 + mark) 0 self.new }
    {
        self.put(0x300 + u32::from(mark), 0);
    }

    // Performs an access: 19 where the log is full, then 18 where a reading is
    // wanted and none is left, else the entry is in the log.
    pub fn perform(&mut self, next: Next) -> Result<u32, Reply>
        ensures { Performs self.old next result self.new }
    {
        if !self.has_room() {
            return Err(next.refused());
        }
        let (v, used) = self.taken(next)?;
        self.put(next.head(), next.value(v));
        self.used = used;
        Ok(v)
    }
}

// Does to the lent buffer what is done with an access; an index past its end is no place. The index stays
// tested here: the library's `get_mut` does not say what the slice ends as, and the proof does not close.
pub fn keep(buffer: &mut [u8], store: Store)
    ensures { buffer.new ≡ stored_in buffer.old store }
{
    if let Some((at, byte)) = store
        && at < buffer.len()
    {
        buffer[at] = byte;
    }
}

// The entry that two words of a log stand for. It stays a function of the two: From would want them as
// a tuple, and its callers have them apart.
pub fn entry_of(head: u32, value: u32) -> Entry
    ensures { result ≡ entry head value }
{
    match head >> 8 {
        1 => Entry::Read(byte_of(head), value),
        2 => Entry::Write(byte_of(head), value),
        _ => Entry::Marked(byte_of(head)),
    }
}
