// The slave driver as one machine of one access a step, over the machines of `listen` and of a response.
#![tactic(auto)]

pub mod reset; // the points of `reset`

ghost use Rattle.std.specs.Prelude.{◌≡◌};
ghost use Rattle.slave_respond.specs.Inner.Machine.{response};
ghost use Rattle.slave_steps.specs.Inner.Machine.{slave, start_reset, start_listen, listen_point};
ghost use Rattle.slave_steps.specs.Inner.Machine.{start_respond, start_fill, next_at, moved};
ghost use Rattle.slave_steps.specs.Inner.Machine.{advance_at};

use regs::access::{Next, Store};
use regs::answers::{Answer, Refusal};
use reset::ResetPoint;
use slave::SlaveState;
use slave_listen::ListenPoint;
use slave_respond::{Job, RespondPoint, Response};

// Where a call stands: the access that is next.
#[derive(Clone, Copy)]
pub enum Point {
    Refused(Refusal),
    BlockReset(u16, bool),
    Resetting(ResetPoint),
    Listening(ListenPoint),
    Responding(Response),
}

// The machine: the state, the length of the listen buffer or of the response, and the point.
#[derive(Clone, Copy)]
pub struct Slave {
    pub state: SlaveState,
    pub length: u16,
    pub point: Point,
}

// What a step makes of the machine and of the lent buffer.
#[derive(Clone, Copy)]
pub struct Moved {
    pub slave: Slave,
    pub store: Store,
}

// `listen` with a byte pending or not: a pending byte has no place in an empty buffer.
fn listen_point(pending: Option<u8>, length: usize) -> Point
    ensures { result ≡ listen_point pending length }
{
    if pending.is_some() && length == 0 {
        Point::Refused(Refusal::NoPlaceForPending)
    } else {
        Point::Listening(ListenPoint::RxTl)
    }
}

fn respond_point(job: Job) -> Point
    ensures { result ≡ Point.Responding (response job (RespondPoint.RawIntrStat 0)) }
{
    Point::Responding(Response {
        job,
        point: RespondPoint::RawIntrStat(0),
    })
}

// The starts of the five calls.
impl Slave {
    // `reset`: no slave has the address 0.
    pub fn start_reset(state: SlaveState, address: u16, general_call: bool) -> Slave
        ensures { result ≡ start_reset state address general_call }
    {
        let point = if address == 0 {
            Point::Refused(Refusal::SlaveAddressZero)
        } else {
            Point::BlockReset(address, general_call)
        };
        Slave {
            state,
            length: 0,
            point,
        }
    }

    // A call with a buffer or bytes of a length beyond the limits: nothing is done with it.
    fn over_limits(state: SlaveState) -> Slave
        ensures { result ≡ slave state 0 (Point.Refused Refusal.OverLimits) }
    {
        Slave {
            state,
            length: 0,
            point: Point::Refused(Refusal::OverLimits),
        }
    }

    // `listen`, with a buffer so long. `state` and `length` stay two parameters of the starts: the state is
    // the driver's, the length that of what this call lends, and the `Slave` that is made holds both.
    pub fn start_listen(state: SlaveState, length: usize) -> Slave
        ensures { result ≡ start_listen state length }
    {
        if 4096 < length {
            return Slave::over_limits(state);
        }
        Slave {
            state,
            length: length as u16,
            point: listen_point(state.pending_byte, length),
        }
    }

    fn start_respond(state: SlaveState, job: Job, length: usize) -> Slave
        ensures { result ≡ start_respond state job length }
    {
        if 4096 < length {
            return Slave::over_limits(state);
        }
        let point = if length == 0 {
            Point::Refused(Refusal::InvalidResponseBufferLength)
        } else {
            respond_point(job)
        };
        Slave {
            state,
            length: length as u16,
            point,
        }
    }

    // `respond_to_read`, of so many bytes.
    pub fn start_respond_to_read(state: SlaveState, length: usize) -> Slave
        ensures { result ≡ start_respond state Job.Respond length }
    {
        Slave::start_respond(state, Job::Respond, length)
    }

    // `respond_till_stop`.
    pub fn start_respond_till_stop(state: SlaveState, fill: u8) -> Slave
        ensures { result ≡ start_fill state fill }
    {
        Slave {
            state,
            length: 0,
            point: respond_point(Job::Fill(fill)),
        }
    }

    // `respond_and_fill`, of so many bytes.
    pub fn start_respond_and_fill(state: SlaveState, length: usize, fill: u8) -> Slave
        ensures { result ≡ start_respond state (Job.RespondThenFill fill) length }
    {
        Slave::start_respond(state, Job::RespondThenFill(fill), length)
    }
}

// The steps.
impl Slave {
    // The slave at another point.
    pub fn at_point(self, point: Point) -> Slave
        ensures { result ≡ slave self.state self.length point }
    {
        Slave { point, ..self }
    }

    // The access that is next, or the answer. `bytes` is what a response sends.
    pub fn next_access(self, bytes: &[u8]) -> Next
        ensures { result ≡ next_at bytes.now self.state self.point }
    {
        match self.point {
            Point::Refused(why) => Next::Finished(Answer::Refused(why)),
            Point::BlockReset(_, _) => Next::Mark(regs::BLOCK_RESET),
            Point::Resetting(point) => point.next(self.state.address, self.state.general_call),
            Point::Listening(point) => point.next(),
            Point::Responding(response) => response.next(bytes),
        }
    }

    // A step with which nothing is stored and the state stays.
    fn moves(self, point: Point) -> Moved
        ensures { result ≡ moved self.state self.length point None }
    {
        Moved {
            slave: self.at_point(point),
            store: None,
        }
    }

    // The settings change with the block reset, and the pending byte stays.
    fn configure(self, address: u16, general_call: bool) -> Moved
        ensures { result ≡ advance_at (Point.BlockReset address general_call) self.state self.length 0 }
    {
        let state = SlaveState {
            address,
            general_call,
            ..self.state
        };
        Slave { state, ..self }.moves(Point::Resetting(ResetPoint::Disable))
    }

    fn listen(self, point: ListenPoint, v: u32) -> Moved
        ensures { result ≡ advance_at (Point.Listening point) self.state self.length v }
    {
        let listened = point.advance(self.state.pending_byte, v, self.length);
        Moved {
            slave: Slave {
                state: SlaveState {
                    pending_byte: listened.pending,
                    ..self.state
                },
                length: self.length,
                point: Point::Listening(listened.point),
            },
            store: listened.store,
        }
    }

    // What the Rust does from an access, which read v, up to the next one.
    pub fn advance(self, v: u32) -> Moved
        ensures { result ≡ advance_at self.point self.state self.length v }
    {
        match self.point {
            Point::Refused(_) => self.moves(self.point),
            Point::BlockReset(address, general_call) => self.configure(address, general_call),
            Point::Resetting(point) => self.moves(Point::Resetting(point.advance(v))),
            Point::Listening(point) => self.listen(point, v),
            Point::Responding(response) => {
                self.moves(Point::Responding(response.advance(v, self.length)))
            }
        }
    }
}
