// Numbers in capital hexadecimal digits. Reading and writing digits stays functions of our own: `from_str_radix`
// takes small letters and signs too, and Display writes into a Formatter, which no contract says the bytes of.
ghost use Rattle.std.specs.Prelude.{◌≡◌, true, ◌+◌, ◌/◌, ◌<◌, ◌≤◌, length, ltb, get_or, set};
ghost use Rattle.text_hex.specs.Text.{digit_of, digit_in, char_of};
ghost use Rattle.text_hex.specs.Appended.{NumberAs};
ghost use Rattle.text_hex.specs.Pairs.{all_digits, whole_pairs, values, PutAt};

#[tactic(auto, unfolding(crate::specs::Text::digit_of))]
pub fn is_digit(c: u8) -> bool
    ensures { result ≡ ltb (digit_of c) 16 }
{
    matches!(c, b'0'..=b'9' | b'A'..=b'F')
}

// The value of a digit, if the byte is one. It stays a match: `char::to_digit` takes small letters too.
#[tactic(auto, unfolding(crate::specs::Text::digit_of))]
pub fn digit(c: u8) -> Option<u8>
    ensures { result ≡ digit_in c }
{
    match c {
        b'0'..=b'9' => Some(c - b'0'),
        b'A'..=b'F' => Some(c - b'A' + 10),
        _ => None,
    }
}

// The number in n bytes of a line from `at` on, if they are digits. The place stays beside the line: the
// definition counts the digits of a frame from the start of its line, and so do all who call this.
pub fn number(line: &[u8], at: usize, n: usize) -> Option<u32>
    requires within { at + n ≤ length line.now }
    requires few { n ≤ 8 }
    ensures { NumberAs line.now at n result }
{
    let mut v: u32 = 0;
    for c in &line[at..at + n] {
        let d = digit(*c)?;
        v = v * 16 + u32::from(d);
    }
    Some(v)
}

// Whether all bytes are digits. No byte ends the loop, so that it is compiled to look at many at once.
pub fn all_digits(ds: &[u8]) -> bool
    ensures { result ≡ all_digits ds.now }
{
    let mut so_far = true;
    for c in ds {
        so_far &= is_digit(*c);
    }
    so_far
}

// Whether the line is pairs of digits.
pub fn is_pairs(ds: &[u8]) -> bool
    ensures { result ≡ whole_pairs ds.now }
{
    ds.len() % 2 == 0 && all_digits(ds)
}

// The value of a byte that is a digit, with no test: a letter is above 64, and its lowest bits count from 1.
// It stays beside `digit`, whose Option would have to be taken apart for bytes that are known to be digits.
fn digit_value(c: u8) -> u8
    requires { digit_of c < 16 }
    ensures { result ≡ digit_of c }
{
    c % 16 + c / 64 * 9
}

// The byte that the pair of digits i writes. It stays a function: `u8::from_str_radix` takes a text with a sign
// too, and answers a Result where there is nothing to refuse.
fn pair(ds: &[u8], i: usize) -> u8
    requires digits { whole_pairs ds.now ≡ true }
    requires within { i < length ds.now / 2 }
    ensures { result ≡ get_or (values ds.now) i 0 }
{
    let high = digit_value(ds[2 * i]);
    let low = digit_value(ds[2 * i + 1]);
    high * 16 + low
}

// A store, where the index is in range.
pub fn put<T: Copy>(items: &mut [T], at: usize, v: T)
    ensures { items.new ≡ set items.old at v }
{
    // `get_mut` does not say that the rest of the buffer stays as it was.
    if at < items.len() {
        items[at] = v;
    }
}

// The bytes that pairs of digits write, put at `at` of a lent buffer where it has room for them. The place
// stays beside the buffer: a slice from `at` on would have to be asked for where there is no room either.
pub fn put_bytes(ds: &[u8], bytes: &mut [u8], at: usize)
    requires digits { whole_pairs ds.now ≡ true }
    requires few { at ≤ 4096 }
    ensures { PutAt ds.now at bytes.old bytes.new }
{
    let n = ds.len() / 2;
    if bytes.len() < at + n {
        return;
    }
    for i in 0..n {
        bytes[at + i] = pair(ds, i);
    }
}

// The character of a digit. It stays a function: `char::from_digit` writes small letters, and answers an Option.
#[tactic(auto, unfolding(crate::specs::Text::char_of))]
pub fn char(d: u32) -> u8
    requires { d < 16 }
    ensures { result ≡ char_of d }
{
    if d < 10 {
        (d + 48) as u8
    } else {
        (d + 55) as u8
    }
}
