// The code of a long message: it is folded into 64 lanes, each of every 64th byte, with the same code.
ghost use Rattle.std.specs.Prelude.{◌<◌, ◌≤◌, ◌≡◌, length, take};
ghost use Rattle.crc8.specs.Crc8.{crc8_from, crc8};
ghost use Rattle.crc8.specs.Inner.Lanes.{LANES, after_zero, after_four, taken_in};

use super::Table;

// The register after a bit 0.
fn after_zero(crc: u8) -> u8
    ensures { result ≡ after_zero crc }
{
    (crc << 1) ^ ((crc >> 7) * 7)
}

// The register after four bits 0. The bits shifted out come back times x^2 + x + 1. Without a branch and
// without the table, so that the compiler vectorizes the loop over the lanes.
fn after_four(crc: u8) -> u8
    ensures { result ≡ after_four crc }
{
    let out = crc >> 4;
    (crc << 4) ^ out ^ (out << 1) ^ (out << 2)
}

// Takes a further block into the lanes: each lane waits only for itself.
fn take_in(lanes: &mut [u8; 64], block: &[u8; 64])
    ensures { lanes.new ≡ taken_in lanes.old block.now }
{
    for (j, lane) in lanes.iter_mut().enumerate() {
        *lane = after_four(*lane) ^ block[j];
    }
}

// The first block, of at most 64 bytes, at the end of the lanes: the bytes 0 before it do not count. The
// start value is xored into its first byte. `start` and `bytes` stay two parameters, here and below: the
// register goes from one message into the next, and its bytes do not.
fn first_block(start: u8, bytes: &[u8]) -> [u8; 64]
    requires { (0 < length bytes.now) × (length bytes.now ≤ LANES) }
    ensures { crc8 result ≡ crc8_from start bytes.now }
{
    let mut lanes = [0u8; 64];
    let gap = 64 - bytes.len();
    lanes[gap..].copy_from_slice(bytes);
    lanes[gap] ^= start;
    lanes
}

impl Table {
    // The code of the lanes. A lookup waits for the one before it, so four quarters go side by side in one
    // loop; 16 zero bytes act as one zero bit, so `after_zero` joins them.
    fn code_of_lanes(&self, lanes: &[u8; 64]) -> u8
        ensures { result ≡ crc8 lanes.now }
    {
        let mut a = 0;
        let mut b = 0;
        let mut c = 0;
        let mut d = 0;
        for j in 0..16 {
            a = self.looked_up(a, lanes[j]);
            b = self.looked_up(b, lanes[j + 16]);
            c = self.looked_up(c, lanes[j + 32]);
            d = self.looked_up(d, lanes[j + 48]);
        }
        let ab = after_zero(a) ^ b;
        let abc = after_zero(ab) ^ c;
        after_zero(abc) ^ d
    }

    // The code of a message by the lanes.
    pub fn crc8_by_lanes(&self, start: u8, bytes: &[u8]) -> u8
        requires { 0 < length bytes.now }
        ensures { result ≡ crc8_from start bytes.now }
    {
        let (first, rest) = bytes.split_at((bytes.len() - 1) % 64 + 1);
        let (blocks, _) = rest.as_chunks::<64>();
        let mut lanes = first_block(start, first);
        for block in blocks {
            take_in(&mut lanes, block);
        }
        self.code_of_lanes(&lanes)
    }
}
