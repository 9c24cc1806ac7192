// The text of a frame, with what its word put on the bus. Each function puts its text
// behind what stands in a text already; `tell` makes the text of a lent buffer.
ghost use Rattle.std.specs.Prelude.{◌≡◌, ◌+◌, ◌-◌, ◌<◌, ◌≤◌, length, replicate};
ghost use Rattle.text_hex.specs.Added.{Room, Added};
ghost use Rattle.text_hex.specs.Appended.{Appended};
ghost use Rattle.bus.specs.Bus.{signs_of};
ghost use Rattle.explain_bus.specs.Line.{signs_text};
ghost use Rattle.explain_beside.specs.Piece.{bus_head, word_line, told_of, told};
ghost use Rattle.explain_beside.specs.Inner.Parts.{addressed_text, opening_text};
ghost use Rattle.explain_beside.specs.Inner.Parts.{data_text, closing_text};

use super::transfer::{Transfer, written};
use bus::{Condition, Sign};
use explain_bus::line::{letter, push_byte, push_run, push_sign};
use explain_frames::{Begin, explain, push_words};
use regs::fields::{byte_of, has_stop, is_read};
use text_hex::text::Text;

// START or RESTART, and the address with its direction. `read` stays the bool which `is_read` and
// `letter` know, here and below: a Direction would be made of it, and turned back for the letter.
fn push_addressed(text: &mut Text, condition: Condition, address: u32, read: bool)
    requires { Room 13 text.old }
    ensures { Added text.old (addressed_text condition address read) 13 text.new }
{
    push_sign(text, Sign::from(condition));
    text.push(b' ');
    text.push_hex2(address);
    text.push(letter(read));
}

#[tactic(auto, using(text_hex::proofs::Adding::no_text), unfolding(crate::specs::Inner::Parts::opening_text))]
fn push_opening(text: &mut Text, condition: Option<Condition>, address: u32, read: bool)
    requires { Room 13 text.old }
    ensures { Added text.old (opening_text condition address read) 13 text.new }
{
    if let Some(first) = condition {
        push_addressed(text, first, address, read);
    }
}

// A written byte, or one read slot. The word stays a parameter beside the text that it is put into, here and
// below: one is the device's and the other the caller's.
#[tactic(auto, using(text_hex::proofs::Adding::at_most))]
fn push_data(text: &mut Text, read: bool, w: u32)
    requires { Room 9 text.old }
    ensures { Added text.old (data_text read w) 9 text.new }
{
    if read {
        push_run(text, 1);
    } else {
        push_byte(text, u32::from(byte_of(w)));
    }
}

#[tactic(auto, using(text_hex::proofs::Adding::no_text))]
fn push_closing(text: &mut Text, last: bool)
    requires { Room 9 text.old }
    ensures { Added text.old (closing_text last) 9 text.new }
{
    if last {
        push_sign(text, Sign::Stop);
    }
}

// What a word makes of the bus. The word stays beside the transfer: it is what comes next, and no part of it.
fn push_piece(text: &mut Text, transfer: Transfer, w: u32)
    requires { Room 31 text.old }
    ensures { Added text.old (signs_text 0 (signs_of transfer.bus transfer.address w)) 31 text.new }
{
    let read = is_read(w);
    let applied = transfer.bus.applied(w);
    push_opening(text, applied.opening, transfer.address, read);
    push_data(text, read, w);
    push_closing(text, has_stop(w));
}

// Spaces up to a column.
fn push_spaces(text: &mut Text, column: usize)
    requires within { text.old.at ≤ length text.old.out.now }
    requires room { column ≤ length text.old.out.now }
    ensures { Added text.old (replicate (column - text.old.at) 32) (column - text.old.at) text.new }
{
    for _ in text.at..column {
        text.push(b' ');
    }
}

// An access with what it put on the bus. It stays no Display: a Formatter's bytes are in no contract.
fn push_word(text: &mut Text, transfer: Transfer, w: u32)
    requires { Room 16900 text.old }
    ensures { Added text.old (word_line transfer w) 16900 text.new }
{
    let start = text.at;
    push_words(text, Begin::Write, u32::from(regs::DATA_CMD), w);
    push_spaces(text, start + 52);
    text.push_text(b"  bus:");
    push_piece(text, transfer, w);
    text.push(b'\n');
}

fn word_line(transfer: Transfer, w: u32, out: &mut [u8]) -> usize
    requires { 16900 ≤ length out.old }
    ensures { Appended out.old 0 (word_line transfer w) 16900 out.new result }
{
    let mut text = Text::new(out, 0);
    push_word(&mut text, transfer, w);
    text.at
}

// A line of an open transfer. The answer stays a number: it is where the text ends, and where the buffer has
// no room the text is empty and ends at 0. Line and buffer stay apart: one is read, the other written.
fn explain_after(transfer: Transfer, line: &[u8], out: &mut [u8]) -> usize
    ensures { Appended out.old 0
        (told_of transfer line.now (length out.old))
        (length out.old) out.new result }
{
    match written(line, regs::DATA_CMD) {
        None => explain(line, out),
        Some(w) => {
            if out.len() < explain_frames::ROOM {
                return 0;
            }
            word_line(transfer, w, out)
        }
    }
}

// The text of a line after what stands before it, at the start of a buffer that has room for the longest.
pub fn tell(before: Option<Transfer>, line: &[u8], out: &mut [u8]) -> usize
    ensures { Appended out.old 0
        (told before line.now (length out.old))
        (length out.old) out.new result }
{
    match before {
        None => explain(line, out),
        Some(transfer) => explain_after(transfer, line, out),
    }
}
