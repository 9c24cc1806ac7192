// A machine's run in parts. In specs/ is what it means that a run comes from one of its states to
// another; here is what a part of it asks of a recording before it goes ahead, and a read in it.
#![tactic(auto)]

ghost use Rattle.std.specs.Prelude.{true, false, ◌≡◌, ◌+◌, ◌<◌, ◌≤◌, length, get_or};
ghost use Rattle.regs.specs.Inner.Recording.{Enters, room_of};
ghost use Rattle.regs_runs.specs.Inner.Puts.{Reads, Polled, head_put, value_put};

use regs::access::{Entry, Recording};

// Whether so many more fit behind those that are used.
fn fits(used: usize, more: usize, length: usize) -> bool
    ensures { result ≡ true → used + more ≤ length }
{
    length.checked_sub(used).is_some_and(|left| more <= left)
}

// Whether a recording has so many more readings, and room for so many more entries.
#[inline(always)]
pub fn has(recording: &Recording, readings: usize, entries: usize) -> bool
    ensures { result ≡ true
        → (recording.now.used + readings ≤ length recording.now.readings.now)
        × (recording.now.entries + entries ≤ room_of recording.now) }
{
    fits(recording.used, readings, recording.readings.len())
        && fits(recording.entries, entries, recording.log.len() / 2)
}

// Reads a register, where a reading is left and the log has room. The room stays a clause of this and of
// `put`: their callers have asked for all the entries of a round or of a poll at once.
pub fn read(recording: &mut Recording, register: u8) -> u32
    requires { (recording.old.used < length recording.old.readings.now)
        × (recording.old.entries < room_of recording.old) }
    ensures { Reads recording.old register result recording.new }
{
    let v = recording.readings[recording.used];
    recording.put_read(register, v);
    recording.used += 1;
    v
}

// The reading that is so many ahead, 0 where there is none: it stays a word in place of an Option,
// since `poll` makes nothing of a poll whose readings are not all there.
pub fn ahead(recording: &Recording, n: usize) -> u32
    ensures { result ≡ get_or recording.now.readings.now (recording.now.used + n) 0 }
{
    let at = recording.used.saturating_add(n);
    recording.readings.get(at).copied().unwrap_or(0)
}

// Puts an entry behind those that there are.
#[inline(always)]
fn put(recording: &mut Recording, entry: Entry)
    requires { recording.old.entries < room_of recording.old }
    ensures { Enters recording.old (head_put entry) (value_put entry) recording.new }
{
    match entry {
        Entry::Read(register, v) => recording.put_read(register, v),
        Entry::Write(register, v) => recording.put_write(register, v),
        Entry::Marked(mark) => recording.put_mark(mark),
    }
}

// A poll that may have found nothing: then its entries are put and so many readings
// used, where the recording has them all; and whether that was so.
#[inline(always)]
pub fn poll(
    recording: &mut Recording,
    found_nothing: bool,
    readings: usize,
    entries: &[Entry],
) -> bool
    ensures polled { result ≡ true
        → Polled recording.old found_nothing readings entries.now recording.new }
    ensures stayed { result ≡ false → recording.new ≡ recording.old }
{
    if !found_nothing || !has(recording, readings, entries.len()) {
        return false;
    }
    for entry in entries {
        put(recording, *entry);
    }
    recording.used += readings;
    true
}
