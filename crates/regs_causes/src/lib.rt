// The causes of an abort: how many are set in a raw word of TX_ABRT_SOURCE, and which is the lowest.
#![tactic(auto)]

ghost use Rattle.std.specs.Prelude.{◌≡◌};
ghost use Rattle.regs_causes.specs.Causes.{causes_of};

// How many causes are set, at least one, and the bit of the lowest of them.
#[derive(Clone, Copy)]
pub struct Counted {
    pub count: u8,
    pub lowest: u8,
}

// The causes are bits 0 to 16; `None` where none of them is set. Bits 17 to 31, reserved bits and the flush
// count, are no causes.
pub fn causes(word: u32) -> Option<Counted>
    ensures { result ≡ causes_of word }
{
    let masked = word & 0x1ffff;
    if masked == 0 {
        return None;
    }
    Some(Counted {
        count: masked.count_ones() as u8,
        lowest: masked.trailing_zeros() as u8,
    })
}
