// An abort word for people: the names of its causes, how many they are and which is the lowest.
// The table of the names stands here once, for the lines of the register and for the answers.
ghost use Rattle.std.specs.Prelude.{◌≡◌, ◌++◌, ◌+◌, ◌*◌, ◌<◌, ◌≤◌, length};
ghost use Rattle.text_hex.specs.Added.{Room, Added};
ghost use Rattle.text_tables.specs.Rows.{flags};
ghost use Rattle.explain_frames.specs.Tables.{aborts_flags};
ghost use Rattle.explain_frames.specs.Texts.{counted_text, causes_text};

use regs_causes::{Counted, causes};
use text_hex::text::Text;
use text_tables::decimal::push_digits;
use text_tables::rows::{push_cell, push_flags};

// The names of the causes, a row of 24 bytes for each.
#[derive(Drop)]
struct Names<'a> {
    table: &'a [u8],
    ghost of_causes: { table.now ≡ aborts_flags },
}

impl<'a> Names<'a> {
    // How many causes there are, and the name of the lowest.
    fn push_counted(&self, text: &mut Text, c: Counted)
        requires room { Room 44 text.old }
        requires a_cause { c.lowest < 17 }
        ensures { Added text.old (counted_text (Some c)) 44 text.new }
    {
        let count = u64::from(c.count);
        let lowest = c.lowest as usize;
        text.push_text(b"; causes ");
        push_digits(text, 2, count);
        text.push_text(b", lowest ");
        push_cell(text, self.table, 24, lowest);
    }

    fn push_causes(&self, text: &mut Text, w: u32)
        requires { Room 44 text.old }
        ensures { Added text.old (causes_text w) 44 text.new }
    {
        if w == 0 {
            return;
        }
        match causes(w) {
            None => text.push_text(b"; no cause"),
            Some(c) => self.push_counted(text, c),
        }
    }

    // The number of names stays a parameter, at most 17: a register's line names all of them and an answer's
    // none, and the room that is needed is counted from it.
    fn push_abort(&self, text: &mut Text, n: usize, w: u32)
        requires room { Room (25 * n + 44) text.old }
        requires few { n ≤ 17 }
        ensures { Added text.old (flags aborts_flags n 0 w ++ causes_text w) (25 * n + 44) text.new }
    {
        push_flags(text, self.table, n, w);
        self.push_causes(text, w);
    }
}

// The names of those of the first n causes that are set, and then the causes: no names where n is 0.
pub fn push_abort(text: &mut Text, n: usize, w: u32)
    requires room { Room (25 * n + 44) text.old }
    requires few { n ≤ 17 }
    ensures { Added text.old (flags aborts_flags n 0 w ++ causes_text w) (25 * n + 44) text.new }
{
    let names = Names {
        table: b"7B_ADDR_NOACK...........10ADDR1_NOACK...........10ADDR2_NOACK...........\
          TXDATA_NOACK............GCALL_NOACK.............GCALL_READ..............\
          HS_ACKDET...............SBYTE_ACKDET............HS_NORSTRT..............\
          SBYTE_NORSTRT...........10B_RD_NORSTRT..........MASTER_DIS..............\
          ARB_LOST................SLVFLUSH_TXFIFO.........SLV_ARBLOST.............\
          SLVRD_INTX..............USER_ABRT...............",
    };
    names.push_abort(text, n, w);
}
