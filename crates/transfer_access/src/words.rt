// The access at the points of each Rust function, and what is stored with it.
ghost use Rattle.std.specs.Prelude.{◌≡◌};
ghost use Rattle.transfer.specs.Inner.Machine.{byte_at, read_word, write_word, queue_word, fill_word};
ghost use Rattle.transfer.specs.Inner.Machine.{next_setup};
ghost use Rattle.transfer.specs.Inner.Machine.{next_abort, next_read, next_write, next_round, next_fill};
ghost use Rattle.transfer.specs.Inner.Machine.{next_wait};
ghost use Rattle.transfer.specs.Inner.Machine.{next_stop, store_read, store_round};

use regs::access::{Next, Store};
use regs::fields::{address_of, word_of};
use transfer::counts::sum;
use transfer::{
    AbortPoint, FillPoint, Operation, ReadPoint, RoundPoint, SetupPoint, StopPoint, WaitPoint,
    WritePoint,
};

// Past the end of the buffer, 0 is sent: it stays a byte, since a word goes out there as anywhere. The
// place stays beside the bytes: a write's operation starts at `at`, of all bytes that are lent.
pub fn byte_of(bytes: &[u8], at: usize, i: u16) -> u8
    ensures { result ≡ byte_at bytes.now at i }
{
    bytes
        .get(at.saturating_add(usize::from(i)))
        .copied()
        .unwrap_or(0)
}

// A blocking read's word for byte i.
#[tactic(auto, unfolding(transfer::specs::Inner::Machine::read_word))]
fn word_of_read(i: u16, operation: Operation) -> u32
    ensures { result ≡ read_word i operation.len operation.send_stop operation.restart }
{
    let last = i == operation.len.saturating_sub(1);
    word_of(
        0,
        true,
        operation.send_stop & last,
        operation.restart & (i == 0),
    )
}

// A blocking write's word for byte i.
#[tactic(auto, unfolding(transfer::specs::Inner::Machine::write_word))]
fn word_of_write(byte: u8, i: u16, operation: Operation) -> u32
    ensures { result ≡ write_word byte i operation.len operation.send_stop }
{
    let last = i == operation.len.saturating_sub(1);
    word_of(byte, false, operation.send_stop & last, false)
}

// An async read's word, with so many still to queue.
#[tactic(auto, unfolding(transfer::specs::Inner::Machine::queue_word))]
pub fn word_of_queue(queue: u16, len: u16, send_stop: bool, restart: bool) -> u32
    ensures { result ≡ queue_word queue len send_stop restart }
{
    let left = queue.saturating_sub(1);
    word_of(
        0,
        true,
        (left == 0) & send_stop,
        restart & (left == len.saturating_sub(1)),
    )
}

// An async write's word for byte i.
#[tactic(auto, unfolding(transfer::specs::Inner::Machine::fill_word))]
pub fn word_of_fill(byte: u8, i: u16, len: u16, send_stop: bool) -> u32
    ensures { result ≡ fill_word byte i len send_stop }
{
    let last = u32::from(i) + 1 == u32::from(len);
    word_of(byte, false, last & send_stop, false)
}

#[tactic(auto, unfolding(transfer::specs::Inner::Machine::next_setup))]
pub fn next_setup(p: SetupPoint, address: u16) -> Next
    ensures { result ≡ next_setup address p }
{
    match p {
        SetupPoint::Disable => Next::Write(regs::ENABLE, 0),
        SetupPoint::Target => Next::Write(regs::TAR, address_of(u32::from(address))),
        SetupPoint::Enable => Next::Write(regs::ENABLE, 1),
    }
}

#[tactic(auto, unfolding(transfer::specs::Inner::Machine::next_abort))]
pub fn next_abort(p: AbortPoint) -> Next
    ensures { result ≡ next_abort p }
{
    match p {
        AbortPoint::Source => Next::Read(regs::TX_ABRT_SOURCE),
        AbortPoint::Clear(_) => Next::Read(regs::CLR_TX_ABRT),
    }
}

#[tactic(auto, unfolding(transfer::specs::Inner::Machine::next_read))]
pub fn next_read(p: ReadPoint, operation: Operation) -> Next
    ensures { result ≡ next_read operation.len operation.send_stop operation.restart p }
{
    match p {
        ReadPoint::Room(_) => Next::Read(regs::TXFLR),
        ReadPoint::Ask(i) => Next::Write(regs::DATA_CMD, word_of_read(i, operation)),
        ReadPoint::Level(_) => Next::Read(regs::RXFLR),
        ReadPoint::Take(_) => Next::Read(regs::DATA_CMD),
    }
}

#[tactic(auto, unfolding(transfer::specs::Inner::Machine::next_write))]
pub fn next_write(p: WritePoint, operation: Operation, bytes: &[u8]) -> Next
    ensures { result ≡ next_write bytes.now operation.at operation.len operation.send_stop p }
{
    match p {
        WritePoint::Send(i) => Next::Write(
            regs::DATA_CMD,
            word_of_write(byte_of(bytes, operation.at, i), i, operation),
        ),
        WritePoint::Empty(_) => Next::Read(regs::RAW_INTR_STAT),
        WritePoint::StopDet(_) => Next::Read(regs::RAW_INTR_STAT),
    }
}

#[tactic(auto, unfolding(transfer::specs::Inner::Machine::next_round))]
pub fn next_round(p: RoundPoint, operation: Operation) -> Next
    ensures { result ≡ next_round operation.len operation.send_stop operation.restart p }
{
    match p {
        RoundPoint::Capacity(_) => Next::Read(regs::TXFLR),
        RoundPoint::Queue(round, _) => Next::Write(
            regs::DATA_CMD,
            word_of_queue(
                round.queue,
                operation.len,
                operation.send_stop,
                operation.restart,
            ),
        ),
        RoundPoint::Level(_) => Next::Read(regs::RXFLR),
        RoundPoint::Fetch(_, _) => Next::Read(regs::DATA_CMD),
    }
}

#[tactic(auto, unfolding(transfer::specs::Inner::Machine::next_fill))]
pub fn next_fill(p: FillPoint, operation: Operation, bytes: &[u8]) -> Next
    ensures { result ≡ next_fill bytes.now operation.at operation.len operation.send_stop p }
{
    match p {
        FillPoint::Free(_) => Next::Read(regs::TXFLR),
        FillPoint::Fill(i, _) => Next::Write(
            regs::DATA_CMD,
            word_of_fill(
                byte_of(bytes, operation.at, i),
                i,
                operation.len,
                operation.send_stop,
            ),
        ),
        FillPoint::Full(_) => Next::Read(regs::TXFLR),
    }
}

#[tactic(auto, unfolding(transfer::specs::Inner::Machine::next_wait))]
pub fn next_wait(p: WaitPoint) -> Next
    ensures { result ≡ next_wait p }
{
    match p {
        WaitPoint::RxTl(round) => Next::Write(
            regs::RX_TL,
            u32::from(round.batch.saturating_sub(1)),
        ),
        WaitPoint::TxTl(_) => Next::Write(regs::TX_TL, 1),
        WaitPoint::Mask(_) => Next::Read(regs::INTR_MASK),
        WaitPoint::SetMask(_, w) => Next::Write(regs::INTR_MASK, w),
        WaitPoint::Pending(_) => Next::Mark(regs::PENDING),
    }
}

#[tactic(auto, unfolding(transfer::specs::Inner::Machine::next_stop))]
pub fn next_stop(p: StopPoint) -> Next
    ensures { result ≡ next_stop p }
{
    match p {
        StopPoint::Stat(_) => Next::Read(regs::RAW_INTR_STAT),
        StopPoint::Clear(_) => Next::Read(regs::CLR_STOP_DET),
    }
}

#[tactic(auto, unfolding(transfer::specs::Inner::Machine::store_read))]
pub fn store_read(p: ReadPoint, operation: Operation, v: u32) -> Store
    ensures { result ≡ store_read operation.at p v }
{
    match p {
        ReadPoint::Take(i) => Some((sum(operation.at, i), regs::fields::byte_of(v))),
        ReadPoint::Room(_) | ReadPoint::Ask(_) | ReadPoint::Level(_) => None,
    }
}

// The bytes that remain after a round, and those of the round that are left, are counted back from the end.
#[tactic(auto, unfolding(transfer::specs::Inner::Machine::store_round))]
pub fn store_round(p: RoundPoint, operation: Operation, v: u32) -> Store
    ensures { result ≡ store_round operation.at operation.len p v }
{
    match p {
        RoundPoint::Fetch(round, left) => {
            let i = operation
                .len
                .saturating_sub(round.remaining)
                .saturating_sub(left);
            Some((sum(operation.at, i), regs::fields::byte_of(v)))
        }
        RoundPoint::Capacity(_) | RoundPoint::Queue(..) | RoundPoint::Level(_) => None,
    }
}
