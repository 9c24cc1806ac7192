// `listen`: STATUS says that a byte is there, and it is stored; when the FIFO
// is empty, RX_TL and INTR_MASK are set, and the next poll finds bytes again.
ghost use Rattle.std.specs.Prelude.{true, List, ◌≡◌, ℕ, ◌<◌, ◌≤◌, length};
ghost use Rattle.regs_runs.specs.Inner.Puts.{Grows};
ghost use Rattle.slave_fast_bytes.specs.Inner.Bursts.{Drains, ForAny, straight_byte, straight_poll};

use super::times;
use counts::least;
use regs::access::Recording;
use regs::fields::{byte_of, has_rd_req, has_stop_det, is_first_data_byte, is_not_empty, level_of};
use regs_runs::has;

// How far a message came: the status word of its last poll, the place that
// is next, and the places that there are.
#[derive(Clone, Copy)]
pub struct Message {
    pub stat: u32,
    pub index: u16,
    pub places: u16,
}

fn is_straight(i: u16, status: u32, word: u32) -> bool
    ensures { result ≡ straight_byte i status word }
{
    is_not_empty(status) & !(!(i == 0) & is_first_data_byte(word))
}

fn is_straight_poll(stat: u32, status: u32, filled: u32) -> bool
    ensures { result ≡ straight_poll stat status filled }
{
    !is_not_empty(status) & (!has_rd_req(stat) & (!has_stop_det(stat) & !(level_of(filled) == 0)))
}

impl Message {
    // Byte after byte before the last place, while they lead straight on. Places, readings and log are
    // counted once and not at each byte, where the tests would take as long as the byte itself.
    fn bytes(&mut self, recording: &mut Recording, buffer: &mut [u8])
        requires within { self.old.places ≤ length buffer.old }
        ensures { Drains self.old recording.old buffer.old self.new recording.new buffer.new }
    {
        let places = usize::from(self.places.saturating_sub(self.index).saturating_sub(1));
        for _ in 0..least(places, times(recording, 2, 2)) {
            let status = recording.readings[recording.used];
            let word = recording.readings[recording.used + 1];
            if !is_straight(self.index, status, word) {
                break;
            }
            recording.put_read(regs::STATUS, status);
            recording.put_read(regs::DATA_CMD, word);
            recording.used += 2;
            buffer[usize::from(self.index)] = byte_of(word);
            self.index += 1;
        }
    }

    // The empty FIFO and the next poll, if it finds bytes again, and whether it was made.
    fn poll(&mut self, recording: &mut Recording) -> bool
        ensures drains { ForAny
            (λ (buffer : List ℕ). Drains self.old recording.old buffer self.new recording.new buffer) }
        ensures made { result ≡ true → Grows recording.old recording.new }
    {
        if self.index < self.places && has(recording, 3, 6) {
            let status = recording.readings[recording.used];
            let stat = recording.readings[recording.used + 1];
            let filled = recording.readings[recording.used + 2];
            if is_straight_poll(self.stat, status, filled) {
                recording.put_read(regs::STATUS, status);
                recording.put_write(regs::RX_TL, 11);
                recording.put_write(regs::INTR_MASK, slave_listen::MASK);
                recording.put_mark(regs::PENDING);
                recording.put_read(regs::RAW_INTR_STAT, stat);
                recording.put_read(regs::RXFLR, filled);
                recording.used += 3;
                self.stat = stat;
                return true;
            }
        }
        false
    }

    // Bytes and poll after poll, where the places are within the buffer. It stays a `loop`: whether a poll
    // finds bytes again is known only behind those before it.
    pub fn burst(&mut self, recording: &mut Recording, buffer: &mut [u8])
        ensures { Drains self.old recording.old buffer.old self.new recording.new buffer.new }
    {
        if usize::from(self.places) <= buffer.len() {
            loop {
                self.bytes(recording, buffer);
                if !self.poll(recording) {
                    break;
                }
            }
        }
    }
}
