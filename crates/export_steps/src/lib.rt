// A master transfer driven one access at a time from C or Rust (`rt lib` here makes the library): start it
// and ask for the first access; then perform the access and step with the word read, until the access
// is the end. The transfer is held by the caller, as 20 words (`words`) that each function is lent.
// The functions that end in `_pec` are for a transfer with a packet error code, whose running code
// the caller holds beside the words as two bytes (`code`): one transfer takes either kind, not both.
#![tactic(auto)]

ghost use Rattle.std.specs.Prelude.{◌≡◌, true, false, []};
ghost use Rattle.export_steps.specs.Forms.{fits_form, accepts};
ghost use Rattle.words_code.specs.Inner.Code.{sum_in};
ghost use Rattle.export_steps.specs.Inner.Steps.{access_of, ended, over_limits, told_by};
ghost use Rattle.export_steps.specs.Inner.Steps.{Starts, Tells, Advances, Moves, Stores};

use i2c::is_listed;
use regs::access::Next;
use regs::answers::{Answer, Refusal, Reply};
use transfer::operations::{Operations, Plan};
use transfer::{Point, Transfer};
use words::{ADDRESS, ROW, WORD};

// The access that is next: kind 1 reads the register, 2 writes the value to it,
// 3 is a mark (register 0: a poll that is not done; 1: a reset of the block),
// and 0 is the end, with the answer's number and, as value, its detail.
// `kind`, `register` and `number` stay numbers, here and as parameters below: programs in C get them so.
#[repr(C)]
#[derive(Clone, Copy)]
pub struct Access {
    pub kind: u8,
    pub register: u8,
    pub number: u8,
    pub value: u32,
}

impl Access {
    // An access before the end. It stays a function: From<Next> calls it, with the number of each kind.
    fn of(kind: u8, register: u8, value: u32) -> Access
        ensures { result ≡ record { kind = kind; register = register; number = 0; value = value } }
    {
        Access {
            kind,
            register,
            number: 0,
            value,
        }
    }

    // The end, with the answer's number and detail.
    #[tactic(auto, unfolding(crate::specs::Inner::Steps::ended))]
    fn end(number: u8, detail: u32) -> Access
        ensures { result ≡ ended number detail }
    {
        Access {
            kind: 0,
            register: 0,
            number,
            value: detail,
        }
    }
}

impl From<Next> for Access {
    ghost from_gives = { λ next access. access ≡ access_of next };

    #[tactic(auto, unfolding(crate::specs::Inner::Steps::access_of))]
    fn from(next: Next) -> Access {
        match next {
            Next::Read(register) => Access::of(1, register, 0),
            Next::Write(register, value) => Access::of(2, register, value),
            Next::Mark(mark) => Access::of(3, mark, 0),
            Next::Finished(answer) => {
                let reply = Reply::Answered(answer);
                Access::end(
                    regs_numbers::number_of(reply),
                    regs_numbers::detail_of(reply),
                )
            }
        }
    }
}

// The transfer turned down by number 20.
fn refuse(t: Transfer) -> Transfer
    ensures { result ≡ over_limits t }
{
    t.at_point(Point::Finished(Answer::Refused(Refusal::OverLimits)))
}

// Whether the kinds are those of the form: one read, one write, a write and a read, or any.
// `form` and `kinds` stay numbers in this file, and `kinds` beside `lengths` in the calls: programs in C give
// them so, and any numbers are answered.
#[tactic(auto, unfolding(crate::specs::Forms::fits_form, crate::specs::Forms::shape_of, crate::specs::Forms::same))]
fn are_of_form(form: u8, kinds: &[u8]) -> bool
    ensures { result ≡ fits_form form kinds.now }
{
    match form {
        0 | 4 => matches!(kinds, [0]),
        1 | 5 => matches!(kinds, [1]),
        2 | 6 => matches!(kinds, [1, 0]),
        3 | 7 => true,
        _ => false,
    }
}

#[tactic(auto, unfolding(crate::specs::Forms::accepts))]
fn is_accepted(form: u8, operations: &Operations, written: usize, room: usize) -> bool
    ensures { result ≡ accepts form operations.now.kinds.now operations.now.lengths.now written room }
{
    are_of_form(form, operations.kinds) && is_listed(operations, written, room)
}

// A transfer before its first access, by its form: 0 a blocking read, 1 a write, 2 a write-read,
// 3 a transaction; 4 to 7 the async ones. `kinds` (0 a read, 1 a write) and `lengths` list the
// operations, `written` and `room` are the lengths of the write and the read buffer.
#[unsafe(no_mangle)]
pub extern "C" fn celadonsaw_start(
    words: &mut [u64; 20],
    form: u8,
    address: u16,
    kinds: &[u8],
    lengths: &[u16],
    written: usize,
    room: usize,
)
    ensures { Starts false form address kinds.now lengths.now written room
        words.new }
{
    let mode = words::mode(3 < form);
    // The reads of a transaction carry no RESTART.
    let restart = form % 4 != 3;
    let operations = Operations { kinds, lengths };
    let t = transfer_steps::start(mode, restart, address, &operations);
    if is_accepted(form, &operations, written, room) {
        words::put(words, t);
    } else {
        words::put(words, refuse(t));
    }
}

// The access that is next. `write` is the write buffer.
#[unsafe(no_mangle)]
pub extern "C" fn celadonsaw_next_access(words: &[u64; 20], write: &[u8]) -> Access
    ensures { Tells false words.now write.now result }
{
    if words::ended(words) {
        return Access::end(words::byte(words[ROW]), words::full(words[WORD]));
    }
    transfer_access::next_access(words::transfer_from(words), write).into()
}

// A step that is not made on the words: they are decoded, and the transfer after the step is put back.
fn by_points(words: &mut [u64; 20], value: u32, plan: &Plan)
    ensures { Advances plan.now.coded plan.now.operations.kinds.now plan.now.operations.lengths.now
        words.old value words.new }
{
    if words::ended(words) {
        return;
    }
    let t = words::transfer_from(words);
    words::put(words, transfer_steps::advance(t, value, plan));
}

// The transfer after that access, which read `value` (0 where it read
// nothing); a byte received is put into `read`, the read buffer.
#[unsafe(no_mangle)]
pub extern "C" fn celadonsaw_advance(
    words: &mut [u64; 20],
    value: u32,
    kinds: &[u8],
    lengths: &[u16],
    read: &mut [u8],
)
    ensures moves { Moves false kinds.now lengths.now [] words.old value
        words.new }
    ensures stores { Stores false words.old value read.old read.new }
{
    regs::access::keep(read, words_access::store(words, value));
    let operations = Operations { kinds, lengths };
    let plan = Plan {
        operations,
        coded: false,
    };
    by_points(words, value, &plan);
}

// Both in one call: advances, and tells the access that is next. The
// frequent steps are here alone: with one caller their code is inlined.
#[unsafe(no_mangle)]
pub extern "C" fn celadonsaw_step(
    words: &mut [u64; 20],
    value: u32,
    kinds: &[u8],
    lengths: &[u16],
    write: &[u8],
    read: &mut [u8],
) -> Access
    ensures tells { Tells false words.new write.now result }
    ensures moves { Moves false kinds.now lengths.now [] words.old value
        words.new }
    ensures stores { Stores false words.old value read.old read.new }
{
    regs::access::keep(read, words_access::store(words, value));
    match words_steps::step(words, value) {
        Some(at) => words_access::access_at(words, at.group(), at.row(), write).into(),
        None => {
            let operations = Operations { kinds, lengths };
            let plan = Plan {
                operations,
                coded: false,
            };
            by_points(words, value, &plan);
            let a = celadonsaw_next_access(words, write);
            // The copy stays field by field: the access is then put together in a register, and not in memory
            // (7.9 ns for an access of a read; 10.8 where it is handed on whole).
            Access {
                kind: a.kind,
                register: a.register,
                number: a.number,
                value: a.value,
            }
        }
    }
}

// ---- with a packet error code

// An access as it is told: the word with STOP of a write carries the code, and at the
// end an accepted transfer is 22 where the code that came is not the message's.
#[tactic(auto, unfolding(crate::specs::Inner::Steps::told_by))]
fn changed(code: &[u8; 2], a: Access) -> Access
    ensures { result ≡ told_by (sum_in code.now) a }
{
    match a.kind {
        0 => Access {
            number: words_code::number(code, a.number, a.value),
            ..a
        },
        2 => Access {
            value: words_code::word(code, a.register, a.value),
            ..a
        },
        _ => a,
    }
}

// As `celadonsaw_start`, with a packet error code. All lengths are those of the data: the code
// is in no buffer.
#[unsafe(no_mangle)]
pub extern "C" fn celadonsaw_start_pec(
    words: &mut [u64; 20],
    code: &mut [u8; 2],
    form: u8,
    address: u16,
    kinds: &[u8],
    lengths: &[u16],
    written: usize,
    room: usize,
)
    ensures { Starts true form address kinds.now lengths.now written room
        (words.new, code.new) }
{
    celadonsaw_start(words, form, address, kinds, lengths, written, room);
    words_code::start(code);
}

// As `celadonsaw_next_access`, with a packet error code.
#[unsafe(no_mangle)]
pub extern "C" fn celadonsaw_next_access_pec(
    words: &[u64; 20],
    code: &[u8; 2],
    write: &[u8],
) -> Access
    ensures { Tells true (words.now, code.now) write.now result }
{
    changed(code, celadonsaw_next_access(words, write))
}

// As `celadonsaw_advance`, with a packet error code, which takes in the byte that was sent or
// received. The code that is received has no place in `read`.
#[unsafe(no_mangle)]
pub extern "C" fn celadonsaw_advance_pec(
    words: &mut [u64; 20],
    code: &mut [u8; 2],
    value: u32,
    kinds: &[u8],
    lengths: &[u16],
    write: &[u8],
    read: &mut [u8],
)
    ensures moves { Moves true kinds.now lengths.now write.now
        (words.old, code.old) value (words.new, code.new) }
    ensures stores { Stores true (words.old, code.old) value read.old
        read.new }
{
    let made = celadonsaw_next_access_pec(words, code, write);
    let address = words::half(words[ADDRESS]);
    words_code::feed(code, address, made.kind, made.register, made.value, value);
    regs::access::keep(read, words_access::store(words, value));
    let operations = Operations { kinds, lengths };
    let plan = Plan {
        operations,
        coded: true,
    };
    by_points(words, value, &plan);
}

// As `celadonsaw_step`, with a packet error code: advances, and tells the access that is next.
#[unsafe(no_mangle)]
pub extern "C" fn celadonsaw_step_pec(
    words: &mut [u64; 20],
    code: &mut [u8; 2],
    value: u32,
    kinds: &[u8],
    lengths: &[u16],
    write: &[u8],
    read: &mut [u8],
) -> Access
    ensures tells { Tells true (words.new, code.new) write.now result }
    ensures moves { Moves true kinds.now lengths.now write.now
        (words.old, code.old) value (words.new, code.new) }
    ensures stores { Stores true (words.old, code.old) value read.old
        read.new }
{
    celadonsaw_advance_pec(words, code, value, kinds, lengths, write, read);
    celadonsaw_next_access_pec(words, code, write)
}
