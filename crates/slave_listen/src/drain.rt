// The steps of `drain_fifo`, from the reading of RXFLR that decides whether `listen` calls it.
ghost use Rattle.std.specs.Prelude.{◌≡◌};
ghost use Rattle.slave_listen.specs.Inner.Machine.{drain_from, after_level, after_status, is_next};
ghost use Rattle.slave_listen.specs.Inner.Machine.{after_data};

use super::{ListenPoint, Listened, Poll};
use regs::fields;

// `offset`, `pending` and `v` stay apart in this file: a place of the point, what the state keeps, and the
// word that the access read.
pub fn after_status(stat: u32, offset: u16, v: u32) -> ListenPoint
    ensures { result ≡ after_status stat offset v }
{
    if fields::is_not_empty(v) {
        ListenPoint::DataCmd(stat, offset)
    } else {
        ListenPoint::Watermark(stat, offset)
    }
}

// Whether a byte belongs to the next message.
fn is_next(v: u32, offset: u16) -> bool
    ensures { result ≡ is_next offset v }
{
    (offset != 0) & fields::is_first_data_byte(v)
}

impl Poll {
    // The drain at an offset: a place, or the end of the buffer.
    fn drain_from(self, offset: u16) -> ListenPoint
        ensures { result ≡ drain_from self.length self.stat offset }
    {
        if offset < self.length {
            ListenPoint::Status(self.stat, offset)
        } else {
            ListenPoint::Watermark(self.stat, offset)
        }
    }

    // The pending byte is stored first. That it has a place is
    // proved of the driver; the test keeps the sum in range.
    pub fn after_level(self, len: u16, pending: Option<u8>, v: u32) -> Listened
        ensures { result ≡ after_level self.length self.stat len pending v }
    {
        match pending {
            Some(byte) if len < self.length => Listened {
                point: self.drain_from(len + 1),
                pending: None,
                store: Some((usize::from(len), byte)),
            },
            None if fields::level_of(v) == 0 => Listened::stay(None, self.settle(len)),
            _ => Listened::stay(None, self.drain_from(len)),
        }
    }

    pub fn after_data(self, offset: u16, pending: Option<u8>, v: u32) -> Listened
        ensures { result ≡ after_data self.length self.stat offset pending v }
    {
        if is_next(v, offset) {
            return Listened::stay(
                Some(fields::byte_of(v)),
                ListenPoint::Watermark(self.stat, offset),
            );
        }
        if offset < self.length {
            return Listened {
                point: self.drain_from(offset + 1),
                pending,
                store: Some((usize::from(offset), fields::byte_of(v))),
            };
        }
        Listened::stay(pending, ListenPoint::Watermark(self.stat, offset))
    }
}
