// A log and the reply behind it, put into a text. Printing stays functions on a text: Display writes into a
// Formatter, whose writes may fail, and its texts are no lists of bytes that a contract could name.
ghost use Rattle.std.specs.Prelude.{◌+◌, ◌*◌, ◌≤◌, length, take};
ghost use Rattle.regs.specs.Log.{decode};
ghost use Rattle.text_hex.specs.Print.{entry_text, log_text, reply_text};
ghost use Rattle.text_hex.specs.Added.{Room, Added};

use regs::access::{Entry, entry_of};
use regs::answers::Reply;
use text_hex::hex::Table;
use text_hex::text::Text;

// Reads and writes take one way, so that which of the two comes next need not be guessed. It stays no Display: a
// Formatter's bytes are in no contract.
#[tactic(auto, unfolding(text_hex::specs::Print::entry_text))]
fn push_entry(text: &mut Text, pairs: &Table, e: Entry)
    requires { Room 13 text.old }
    ensures { Added text.old (entry_text e) 13 text.new }
{
    let (kind, register, value) = match e {
        Entry::Read(register, value) => (0x30, register, value),
        Entry::Write(register, value) => (0x31, register, value),
        Entry::Marked(mark) => {
            return if mark == regs::PENDING {
                text.push_plain(0x32)
            } else {
                text.push_plain(0x33)
            };
        }
    };
    text.push_word_by(pairs, kind, u32::from(register), value);
}

// The first n entries of a log, with a table lent. log and n stay two parameters, and the text a third: the
// drivers' calls answer how many entries of the caller's log they filled. What room is needed depends on n, so
// it stays a requirement.
fn push_entries(text: &mut Text, pairs: &Table, log: &[u32], n: usize)
    requires room { Room (13 * n) text.old }
    requires entries { n * 2 ≤ length log.now }
    ensures { Added text.old (log_text (decode (take (n * 2) log.now))) (13 * n) text.new }
{
    for i in 0..n {
        let e = entry_of(log[i * 2], log[i * 2 + 1]);
        push_entry(text, pairs, e);
    }
}

// The first n entries of a log. The table is made once for
// all of them: a constant is stored anew wherever it is used.
pub fn push_log(text: &mut Text, log: &[u32], n: usize)
    requires room { Room (13 * n) text.old }
    requires entries { n * 2 ≤ length log.now }
    ensures { Added text.old (log_text (decode (take (n * 2) log.now))) (13 * n) text.new }
{
    let pairs = Table {
        pairs: b"000102030405060708090A0B0C0D0E0F\
          101112131415161718191A1B1C1D1E1F\
          202122232425262728292A2B2C2D2E2F\
          303132333435363738393A3B3C3D3E3F\
          404142434445464748494A4B4C4D4E4F\
          505152535455565758595A5B5C5D5E5F\
          606162636465666768696A6B6C6D6E6F\
          707172737475767778797A7B7C7D7E7F\
          808182838485868788898A8B8C8D8E8F\
          909192939495969798999A9B9C9D9E9F\
          A0A1A2A3A4A5A6A7A8A9AAABACADAEAF\
          B0B1B2B3B4B5B6B7B8B9BABBBCBDBEBF\
          C0C1C2C3C4C5C6C7C8C9CACBCCCDCECF\
          D0D1D2D3D4D5D6D7D8D9DADBDCDDDEDF\
          E0E1E2E3E4E5E6E7E8E9EAEBECEDEEEF\
          F0F1F2F3F4F5F6F7F8F9FAFBFCFDFEFF",
    };
    // In a text of its own the place stays in a register; in the one that is lent it is
    // stored behind each byte.
    let mut lines = Text::new(&mut *text.out, text.at);
    push_entries(&mut lines, &pairs, log, n);
    text.at = lines.at;
}

// The line of a reply. It stays no Display, for the same reason.
pub fn push_reply(text: &mut Text, r: Reply)
    requires { Room 13 text.old }
    ensures { Added text.old (reply_text r) 13 text.new }
{
    text.push_answer(
        u32::from(regs_numbers::number_of(r)),
        regs_numbers::detail_of(r),
    );
}
