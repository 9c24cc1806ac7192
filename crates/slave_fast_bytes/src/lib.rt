// Bursts of the slave: the accesses of whole bytes, polls and chunks in one loop,
// where the readings lead straight on. Each takes the place of the machine's
// steps between two points; what is off that way is left to the machine.
#![tactic(auto)]

ghost use Rattle.std.specs.Prelude.{◌≡◌, ◌<◌, ◌-◌, ◌/◌, length, min};
ghost use Rattle.regs.specs.Inner.Recording.{room_of};

use counts::least;
use regs::access::Recording;

pub mod listen; // bytes from the FIFO, poll after poll
pub mod respond; // bytes to the FIFO, chunk after chunk

// How many times a recording has so many more readings, and room for so many more entries: a loop that
// counts its rounds by it tests neither again.
pub fn times(recording: &Recording, readings: usize, entries: usize) -> usize
    requires some { (0 < readings) × (0 < entries) }
    ensures { result
        ≡ min ((length recording.now.readings.now - recording.now.used) / readings)
        ((room_of recording.now - recording.now.entries) / entries) }
{
    least(
        recording.readings.len().saturating_sub(recording.used) / readings,
        (recording.log.len() / 2).saturating_sub(recording.entries) / entries,
    )
}
