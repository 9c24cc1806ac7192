// The access that is next in a transfer, and what it puts into the lent buffer.
#![tactic(auto)]

pub mod words; // for the points of each Rust function

ghost use Rattle.std.specs.Prelude.{◌≡◌};
ghost use Rattle.transfer.specs.Inner.Machine.{next_of, store_of};

use regs::access::{Next, Store};
use transfer::{Point, Transfer};

// The access that is next, or the answer. `bytes` are the lent write buffer.
#[tactic(auto, unfolding(transfer::specs::Inner::Machine::next_at))]
pub fn next_access(t: Transfer, bytes: &[u8]) -> Next
    ensures { result ≡ next_of bytes.now t }
{
    let operation = t.operation;
    match t.point {
        Point::Setup(s) => words::next_setup(s, t.address),
        Point::Abort(a, _) => words::next_abort(a),
        Point::ReadBlocking(b) => words::next_read(b, operation),
        Point::WriteBlocking(w) => words::next_write(w, operation, bytes),
        Point::ReadAsync(q) => words::next_round(q, operation),
        Point::WriteAsync(f) => words::next_fill(f, operation, bytes),
        Point::Wait(m) => words::next_wait(m),
        Point::Stop(s) => words::next_stop(s),
        Point::Finished(a) => Next::Finished(a),
    }
}

// What an access that read v puts into the lent read buffer.
#[tactic(auto, unfolding(transfer::specs::Inner::Machine::store_at))]
pub fn store(t: Transfer, v: u32) -> Store
    ensures { result ≡ store_of t v }
{
    match t.point {
        Point::ReadBlocking(b) => words::store_read(b, t.operation, v),
        Point::ReadAsync(q) => words::store_round(q, t.operation, v),
        _ => None,
    }
}
