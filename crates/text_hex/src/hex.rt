// The two digits of a byte: how they are made is a type, since a long text takes them from a table.
ghost use Rattle.std.specs.Prelude.{◌≡◌, [], ◌∷◌, ◌/◌, ◌%◌};
ghost use Rattle.text_hex.specs.Text.{char_of};
ghost use Rattle.text_hex.specs.Pairs.{DigitPairs};

use super::digits::char;

// The characters of a byte's two digits.
#[derive(Clone, Copy, PartialEq, Eq)]
pub struct Pair {
    pub high: u8,
    pub low: u8,
}

// Writing a byte's digits stays a trait of our own: Display could not take them from a table.
pub trait BytePairs {
    // The digits of the lowest 8 bits. They stay two bytes: UpperHex writes into a Formatter, whose bytes no
    // contract says.
    fn pair(&self, n: u32) -> Pair
        ensures high { result.high ≡ char_of (n / 16 % 16) }
        ensures low { result.low ≡ char_of (n % 16) };
}

// Each digit is computed.
#[derive(Clone, Copy, Drop)]
pub struct Computed;

impl BytePairs for Computed {
    fn pair(&self, n: u32) -> Pair {
        Pair {
            high: char(n / 16 % 16),
            low: char(n % 16),
        }
    }
}

// The digits stand in a table of the digits of every byte.
#[derive(Drop)]
pub struct Table<'a> {
    pub pairs: &'a [u8],
    ghost of_bytes: { DigitPairs pairs.now },
}

impl<'a> BytePairs for Table<'a> {
    fn pair(&self, n: u32) -> Pair {
        let k = (n % 256 * 2) as usize;
        Pair {
            high: self.pairs[k],
            low: self.pairs[k + 1],
        }
    }
}
