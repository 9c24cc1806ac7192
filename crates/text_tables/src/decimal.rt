// Numbers in decimal digits.
ghost use Rattle.std.specs.Prelude.{◌+◌, ◌<◌, ◌≡◌};
ghost use Rattle.text_hex.specs.Added.{Room, Added};
ghost use Rattle.text_tables.specs.Decimal.{digits};

use text_hex::text::Text;

// The character of a digit. It stays a function: `char::from_digit` answers an Option of a char, which would
// have to be taken apart to the byte.
fn digit(d: u64) -> u8
    requires { d < 10 }
    ensures { result ≡ d + 48 }
{
    (d + 48) as u8
}

// The last k digits at most: those of the tenth first, then the one that is left over. This stays a recursion:
// a loop makes the last digit first, and would need a buffer to turn them round. Display is no way: its
// Formatter's bytes are in no contract.
pub fn push_digits(text: &mut Text, k: usize, n: u64)
    requires { Room k text.old }
    ensures { Added text.old (digits k n) k text.new }
{
    if k == 0 {
        return;
    }
    if n < 10 {
        text.push(digit(n));
        return;
    }
    push_digits(text, k - 1, n / 10);
    text.push(digit(n % 10));
}
