// Text put into a lent buffer, one piece behind the other: bytes, hexadecimal numbers, and answers.
ghost use Rattle.std.specs.Prelude.{◌≡◌, [], ◌∷◌, ◌+◌, ◌*◌, ◌<◌, ◌≤◌, length};
ghost use Rattle.text_hex.specs.Text.{hex2, hex8};
ghost use Rattle.text_hex.specs.Print.{plain_frame, word_frame, bytes_text, buffer_text, answer_text};
ghost use Rattle.text_hex.specs.Added.{Room, Added};

use super::hex::{BytePairs, Computed};

// A lent buffer and where the text in it ends so far. The room for what comes next stays a requirement of each
// method, and no fact of the type: it is another number for each piece, and less of it with each that is put.
#[derive(Drop)]
pub struct Text<'a> {
    pub out: &'a mut [u8],
    pub at: usize,
}

impl<'a> Text<'a> {
    // Text from `at` on. Here buffer and place stay two parameters: this makes the one value of them.
    pub fn new(out: &'a mut [u8], at: usize) -> Text<'a>
        ensures same_reference { result.out.ghost_name ≡ out.entry.ghost_name }
        ensures bytes { result.out.now ≡ out.old }
        ensures at { result.at ≡ at }
    {
        Text { out, at }
    }

    // A byte. It and the digits below are inlined: called, each would store the place and load it again.
    #[inline(always)]
    pub fn push(&mut self, c: u8)
        requires { Room 1 self.old }
        ensures { Added self.old (c ∷ []) 1 self.new }
    {
        self.out[self.at] = c;
        self.at += 1;
    }

    // A whole text. Its room stays a requirement, here and below: each method needs another number.
    pub fn push_text(&mut self, bytes: &[u8])
        requires { Room (length bytes.now) self.old }
        ensures { Added self.old bytes.now (length bytes.now) self.new }
    {
        for c in bytes {
            self.push(*c);
        }
    }

    // A number in 2 digits, which are made as `pairs` says. So are 8 digits.
    #[inline(always)]
    pub fn push_hex2_by<P: BytePairs>(&mut self, pairs: &P, n: u32)
        requires { Room 2 self.old }
        ensures { Added self.old (hex2 n) 2 self.new }
    {
        let pair = pairs.pair(n);
        self.push(pair.high);
        self.push(pair.low);
    }

    #[inline(always)]
    fn push_hex8_by<P: BytePairs>(&mut self, pairs: &P, n: u32)
        requires { Room 8 self.old }
        ensures { Added self.old (hex8 n) 8 self.new }
    {
        let high = n / 65536 % 65536;
        let low = n % 65536;
        self.push_hex2_by(pairs, high / 256 % 256);
        self.push_hex2_by(pairs, high % 256);
        self.push_hex2_by(pairs, low / 256 % 256);
        self.push_hex2_by(pairs, low % 256);
    }

    // A number in 2 digits. This and the one of 8 stay apart: a const parameter could be any number of digits, and
    // only these two have a definition.
    #[inline(always)]
    pub fn push_hex2(&mut self, n: u32)
        requires { Room 2 self.old }
        ensures { Added self.old (hex2 n) 2 self.new }
    {
        self.push_hex2_by(&Computed, n);
    }

    // A number in 8 digits.
    #[inline(always)]
    pub fn push_hex8(&mut self, n: u32)
        requires { Room 8 self.old }
        ensures { Added self.old (hex8 n) 8 self.new }
    {
        self.push_hex8_by(&Computed, n);
    }

    // A frame that is its kind alone. The kind stays a number, here and in `push_word_by`: they print the two
    // digits of any, and an enum would turn away some that callers may give now.
    pub fn push_plain(&mut self, kind: u32)
        requires { Room 13 self.old }
        ensures { Added self.old (plain_frame kind) 13 self.new }
    {
        self.push_hex2(kind);
        self.push(b'\n');
    }

    // A frame of its kind, a byte and a word.
    pub fn push_word_by<P: BytePairs>(&mut self, pairs: &P, kind: u32, byte: u32, word: u32)
        requires { Room 13 self.old }
        ensures { Added self.old (word_frame kind byte word) 13 self.new }
    {
        self.push_hex2_by(pairs, kind);
        self.push_hex2_by(pairs, byte);
        self.push_hex8_by(pairs, word);
        self.push(b'\n');
    }

    // A whole read or listen buffer.
    pub fn push_buffer(&mut self, bytes: &[u8])
        requires { Room (3 + 2 * length bytes.now) self.old }
        ensures { Added self.old (buffer_text bytes.now) (3 + 2 * length bytes.now) self.new }
    {
        // In a text of its own the place stays in a register; in the one that is lent it would be stored with
        // each digit.
        let mut line = Text::new(&mut *self.out, self.at);
        line.push_hex2(0x34);
        line.push_bytes(bytes);
        line.push(b'\n');
        self.at = line.at;
    }

    fn push_bytes(&mut self, bytes: &[u8])
        requires { Room (2 * length bytes.now) self.old }
        ensures { Added self.old (bytes_text bytes.now) (2 * length bytes.now) self.new }
    {
        for b in bytes {
            self.push_hex2(u32::from(*b));
        }
    }

    // An answer's number and its detail. The number stays a u32: 21 is the replay's own and no Reply's.
    #[tactic(auto, unfolding(crate::specs::Print::answer_text))]
    pub fn push_answer(&mut self, number: u32, detail: u32)
        requires { Room 13 self.old }
        ensures { Added self.old (answer_text number detail) 13 self.new }
    {
        self.push_word_by(&Computed, 0x35, number, detail);
    }
}
