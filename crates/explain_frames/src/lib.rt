// The replay's answers for people: the text of frames.
#![tactic(auto)]

mod aborts; // the causes of an abort word

ghost use Rattle.std.specs.Prelude.{◌≡◌, ◌+◌, ◌*◌, ◌<◌, ◌≤◌, length};
ghost use Rattle.text_hex.specs.Added.{Room, Added};
ghost use Rattle.text_hex.specs.Appended.{Appended};
ghost use Rattle.text_tables.specs.Rows.{cell, flags};
ghost use Rattle.explain_frames.specs.Tables.{names, interrupts_flags, words, answers};
ghost use Rattle.explain_frames.specs.Begins.{begin_row};
ghost use Rattle.explain_frames.specs.Texts.{state_fields, fields, name_row, access_words, access_text};
ghost use Rattle.explain_frames.specs.Texts.{mark_text, buffer_text, detail_text, answer_text};
ghost use Rattle.explain_frames.specs.Texts.{abort_text, frame_text, explained};

use aborts::push_abort;
use answer_frames::{Frame, frame_in};
use text_hex::text::Text;
use text_tables::rows::{push_cell, push_flags, push_pairs};

// The longest line, a buffer of 4,096 bytes, and the room that the text of every line has in.
pub const LONGEST: usize = 8194;

pub const ROOM: usize = 16900;

// What a line begins with.
#[derive(Clone, Copy, PartialEq, Eq)]
pub enum Begin {
    Read,
    Write,
    Pending,
    BlockReset,
    Buffer,
    Answer,
}

// The row of the table. It stays `as`: that is what the order of the variants says, and a From would hold
// the same words.
fn begin_row(begin: Begin) -> usize
    ensures row { result ≡ begin_row begin }
    ensures in_table { result < 6 }
{
    begin as usize
}

// In what follows the text stays a parameter beside the words of a frame that are put into it: what a line
// begins with, offset and word, an answer's number, its detail, or a line. A frame holds them already, and each
// function is given those that its piece of the line prints.
fn push_begin(text: &mut Text, begin: Begin)
    requires { Room 12 text.old }
    ensures { Added text.old (cell words 12 (begin_row begin)) 12 text.new }
{
    let row = begin_row(begin);
    push_cell(
        text,
        b"read  ......write ......pending.....block reset.buffer......answer .....",
        12,
        row,
    );
}

fn name_row(offset: u32) -> usize
    ensures row { result ≡ name_row offset }
    ensures in_table { result < 43 }
{
    if offset % 4 == 0 && offset < 172 {
        (offset / 4) as usize
    } else {
        3
    }
}

fn push_name(text: &mut Text, offset: u32)
    requires { Room 17 text.old }
    ensures { Added text.old (cell names 17 (name_row offset)) 17 text.new }
{
    let row = name_row(offset);
    push_cell(
        text,
        b"CON              TAR              SAR              ?                DATA_CMD         \
          ?                ?                FS_SCL_HCNT      FS_SCL_LCNT      ?                \
          ?                ?                INTR_MASK        RAW_INTR_STAT    RX_TL            \
          TX_TL            CLR_INTR         ?                ?                ?                \
          CLR_RD_REQ       CLR_TX_ABRT      CLR_RX_DONE      ?                CLR_STOP_DET     \
          ?                CLR_GEN_CALL     ENABLE           STATUS           TXFLR            \
          RXFLR            SDA_HOLD         TX_ABRT_SOURCE   ?                ?                \
          ?                ?                ?                ACK_GENERAL_CALL ?                \
          FS_SPKLEN        ?                CLR_RESTART_DET  ",
        17,
        row,
    );
}

fn push_interrupts(text: &mut Text, w: u32)
    requires { Room 425 text.old }
    ensures { Added text.old (flags interrupts_flags 13 0 w) 425 text.new }
{
    push_flags(
        text,
        b"RX_UNDER................RX_OVER.................RX_FULL.................\
          TX_OVER.................TX_EMPTY................RD_REQ..................\
          TX_ABRT.................RX_DONE.................ACTIVITY................\
          STOP_DET................START_DET...............GEN_CALL................\
          RESTART_DET.............",
        13,
        w,
    );
}

// The fields of STATUS, and those of TX_ABRT_SOURCE with its causes.
fn push_states(text: &mut Text, offset: u32, w: u32)
    requires { Room 469 text.old }
    ensures { Added text.old (state_fields offset w) 469 text.new }
{
    match offset {
        0x70 => push_flags(
            text,
            b"ACTIVITY................TFNF....................TFE.....................\
              RFNE....................RFF.....................MST_ACTIVITY............\
              SLV_ACTIVITY............",
            7,
            w,
        ),
        0x80 => push_abort(text, 17, w),
        _ => {}
    }
}

// The fields of a register's value.
fn push_fields(text: &mut Text, offset: u32, w: u32)
    requires { Room 469 text.old }
    ensures { Added text.old (fields offset w) 469 text.new }
{
    match offset {
        0x00 => push_flags(
            text,
            b"MASTER_MODE.............SPEED_STANDARD..........SPEED_FAST..............\
              10BITADDR_SLAVE.........10BITADDR_MASTER........RESTART_EN..............\
              SLAVE_DISABLE...........STOP_DET_IFADDRESSED....TX_EMPTY_CTRL...........\
              RX_FIFO_FULL_HLD_CTRL...",
            10,
            w,
        ),
        0x10 => push_flags(
            text,
            b"read....................STOP....................RESTART.................\
              FIRST_DATA_BYTE.........",
            4,
            w / 256,
        ),
        0x30 | 0x34 => push_interrupts(text, w),
        _ => push_states(text, offset, w),
    }
}

// An access without the end of its line.
pub fn push_words(text: &mut Text, begin: Begin, offset: u32, w: u32)
    requires { Room 512 text.old }
    ensures { Added text.old (access_words (begin_row begin) offset w) 510 text.new }
{
    push_begin(text, begin);
    push_name(text, offset);
    text.push_hex2(offset);
    text.push(b' ');
    text.push_hex8(w);
    push_fields(text, offset, w);
}

fn push_access(text: &mut Text, begin: Begin, offset: u32, w: u32)
    requires { Room 512 text.old }
    ensures { Added text.old (access_text (begin_row begin) offset w) 512 text.new }
{
    push_words(text, begin, offset, w);
    text.push(b'\n');
}

fn push_mark(text: &mut Text, begin: Begin)
    requires { Room 512 text.old }
    ensures { Added text.old (mark_text (begin_row begin)) 512 text.new }
{
    push_begin(text, begin);
    text.push(b'\n');
}

fn push_buffer(text: &mut Text, line: &[u8])
    requires { Room (16 + 2 * length line.now) text.old }
    ensures { Added text.old (buffer_text line.now) (16 + 2 * length line.now) text.new }
{
    push_begin(text, Begin::Buffer);
    push_pairs(text, line);
    text.push(b'\n');
}

#[tactic(auto, using(text_hex::proofs::Adding::no_text), unfolding(crate::specs::Texts::detail_text))]
fn push_detail(text: &mut Text, d: u32)
    requires { Room 10 text.old }
    ensures { Added text.old (detail_text d) 10 text.new }
{
    if d != 0 {
        text.push_text(b": ");
        text.push_hex8(d);
    }
}

// The name of an answer by its number n. That stays a number here and below, the row of the table: a line may
// hold any, and what is no row prints nothing. Nor is this a Display: a Formatter's bytes are in no contract.
fn push_number(text: &mut Text, n: u32)
    requires { Room 40 text.old }
    ensures { Added text.old (cell answers 40 n) 40 text.new }
{
    if n < 24 {
        push_cell(
            text,
            b"accepted................................1 frequency above 1,000,000.............\
              2 frequency 0...........................3 clock above 1,431,655,765.............\
              4 clock too fast........................5 clock too slow........................\
              6 address not 7 bits....................7 empty read............................\
              8 empty write...........................9 no acknowledge........................\
              10 arbitration lost.....................11 other abort..........................\
              12 TX level above 16....................13 empty response.......................\
              14 partial write........................15 partial general call.................\
              16 slave address 0......................17 no place for the pending byte........\
              18 out of readings......................19 log full.............................\
              20 over the limits......................21 malformed frame at line..............\
              22 wrong packet error code..............23 data byte not acknowledged...........",
            40,
            n as usize,
        );
    }
}

// The causes behind a detail that is an abort word, that of answer 11 or 23.
fn push_abort_of(text: &mut Text, n: u32, d: u32)
    requires { Room 44 text.old }
    ensures { Added text.old (abort_text n d) 44 text.new }
{
    if n == 11 || n == 23 {
        push_abort(text, 0, d);
    }
}

// An answer's line. It stays no Display, for the same reason.
fn push_answer(text: &mut Text, n: u32, d: u32)
    requires { Room 512 text.old }
    ensures { Added text.old (answer_text n d) 512 text.new }
{
    push_begin(text, Begin::Answer);
    push_number(text, n);
    push_detail(text, d);
    push_abort_of(text, n, d);
    text.push(b'\n');
}

fn push_frame(text: &mut Text, line: &[u8], f: Frame)
    requires room { Room 16900 text.old }
    requires not_long { length line.now ≤ 8194 }
    ensures { Added text.old (frame_text line.now f) 16900 text.new }
{
    match f {
        Frame::Read(offset, w) => push_access(text, Begin::Read, offset, w),
        Frame::Write(offset, w) => push_access(text, Begin::Write, offset, w),
        Frame::Pending => push_mark(text, Begin::Pending),
        Frame::BlockReset => push_mark(text, Begin::BlockReset),
        Frame::Buffer => push_buffer(text, line),
        Frame::Answer(n, d) => push_answer(text, n, d),
    }
}

// The text of a line, at the start of a buffer that has room for the longest; nothing where the line is no
// answer frame. The answer stays a number: it is where the text ends, and an empty text ends at 0.
pub fn explain(line: &[u8], out: &mut [u8]) -> usize
    ensures { Appended out.old 0
        (explained line.now (length out.old))
        (length out.old) out.new result }
{
    if line.len() > LONGEST || out.len() < ROOM {
        return 0;
    }
    let mut text = Text::new(out, 0);
    if let Some(f) = frame_in(line) {
        push_frame(&mut text, line, f);
    }
    text.at
}
