// Rows of tables, flags, and pairs of digits.
ghost use Rattle.std.specs.Prelude.{◌+◌, ◌*◌, ◌≤◌, length, drop};
ghost use Rattle.text_hex.specs.Added.{Room, Added};
ghost use Rattle.text_tables.specs.Rows.{until_dot, cell, flag, flags, spaced};

use text_hex::text::Text;

fn push_until_dot(text: &mut Text, letters: &[u8])
    requires { Room (length letters.now) text.old }
    ensures { Added text.old (until_dot letters.now) (length letters.now) text.new }
{
    for c in letters {
        if *c == b'.' {
            return;
        }
        text.push(*c);
    }
}

// The text of a row: it ends at a dot. The table, the width and the row stay apart, as the number of flags does
// below: the tables are byte strings, one row a line, and an array of arrays would say the same in another literal.
fn push_row(text: &mut Text, table: &[u8], width: usize, row: usize)
    requires room { Room width text.old }
    requires in_table { row * width + width ≤ length table.now }
    ensures { Added text.old (cell table.now width row) width text.new }
{
    let first = row * width;
    push_until_dot(text, &table[first..first + width]);
}

// The same in a text of its own, where the place stays in a register; in the one that is lent it would be
// stored with each byte.
pub fn push_cell(text: &mut Text, table: &[u8], width: usize, row: usize)
    requires room { Room width text.old }
    requires in_table { row * width + width ≤ length table.now }
    ensures { Added text.old (cell table.now width row) width text.new }
{
    let mut cell = Text::new(&mut *text.out, text.at);
    push_row(&mut cell, table, width, row);
    text.at = cell.at;
}

// The name of a flag that is set, behind a space.
fn push_flag(text: &mut Text, table: &[u8], row: usize, given: bool)
    requires room { Room 25 text.old }
    requires in_table { row * 24 + 24 ≤ length table.now }
    ensures { Added text.old (flag table.now row given) 25 text.new }
{
    if given {
        text.push(b' ');
        push_cell(text, table, 24, row);
    }
}

// The names of the flags that are set among the first n bits of a word.
pub fn push_flags(text: &mut Text, table: &[u8], n: usize, w: u32)
    requires room { Room (25 * n) text.old }
    requires in_table { n * 24 ≤ length table.now }
    ensures { Added text.old (flags table.now n 0 w) (25 * n) text.new }
{
    let mut rest = w;
    for i in 0..n {
        push_flag(text, table, i, rest % 2 == 1);
        rest /= 2;
    }
}

// The digits of a line from index 2 on, by pairs.
pub fn push_pairs(text: &mut Text, line: &[u8])
    requires { Room (2 * length line.now) text.old }
    ensures { Added text.old (spaced (drop 2 line.now)) (2 * length line.now) text.new }
{
    for i in 1..line.len() / 2 {
        text.push(b' ');
        text.push(line[2 * i]);
        text.push(line[2 * i + 1]);
    }
}
