// Prints the bus sequence of worked logs. The file `stdout` holds what
// UM10204 and the datasheet's DATA_CMD make of them, worked out by hand.
#![tactic(auto)]

use bus::Sign;
use std::fmt;
use std::io::Print;

// The heads of log entries: a write to TAR and to DATA_CMD.
const TAR: u32 = 0x204;

const DATA_CMD: u32 = 0x210;

// One sign of a sequence: an address with w or r for its direction, a written byte, or -- for a read slot.
#[derive(Clone, Copy)]
struct Shown(Sign);

impl fmt::Display for Shown {
    fn fmt<W: fmt::Write>(&self, f: &mut fmt::Formatter<W>) -> fmt::Result {
        match self.0 {
            Sign::Start => f.write_str(" START"),
            Sign::Restart => f.write_str(" RESTART"),
            Sign::Stop => f.write_str(" STOP"),
            Sign::ReadSlot => f.write_str(" --"),
            Sign::Address(byte) => {
                let direction = if byte % 2 == 0 { 'w' } else { 'r' };
                write!(f, " {:02x}{direction}", byte / 2)
            }
            Sign::Written(byte) => write!(f, " {byte:02x}"),
        }
    }
}

// What a buffer holds of a sequence, and the number of places that the whole takes. The count stays beside
// the places: it may be larger than what they hold. What cannot be written is missing from the output, and
// what follows is tried all the same.
fn say_sequence(rt: HostRuntime, name: &str, places: &[Sign], count: usize) {
    let _ = print!(rt; "{name}");
    for &sign in places.iter().take(count) {
        let shown = Shown(sign);
        let _ = print!(rt; "{shown}");
    }
    let _ = println!(rt; " ({count})");
}

// The sequence of a log, put into the places that are lent for it. `log` and `places` stay two parameters:
// the one is read, the other is room to write.
fn show(rt: HostRuntime, places: &mut [Sign], name: &str, log: &[u32]) {
    let count = bus::bus_sequence(log, places);
    say_sequence(rt, name, places, count);
}

// One operation.
fn single(rt: HostRuntime) {
    show(
        rt,
        &mut [Sign::Stop; 16],
        "one-byte read:",
        &[TAR, 0x50, DATA_CMD, 0x700],
    );
    show(
        rt,
        &mut [Sign::Stop; 16],
        "two bytes written:",
        &[TAR, 0x50, DATA_CMD, 0x012, DATA_CMD, 0x234],
    );
    show(
        rt,
        &mut [Sign::Stop; 16],
        "general call:",
        &[TAR, 0x00, DATA_CMD, 0x206],
    );
    show(
        rt,
        &mut [Sign::Stop; 16],
        "highest address:",
        &[TAR, 0x7f, DATA_CMD, 0x3ff],
    );
    show(
        rt,
        &mut [Sign::Stop; 16],
        "no STOP:",
        &[TAR, 0x50, DATA_CMD, 0x012],
    );
}

// Words that start, join or part operations.
fn several(rt: HostRuntime) {
    show(
        rt,
        &mut [Sign::Stop; 16],
        "write, then read:",
        &[TAR, 0x50, DATA_CMD, 0x012, DATA_CMD, 0x300],
    );
    show(
        rt,
        &mut [Sign::Stop; 16],
        "reads joined:",
        &[TAR, 0x50, DATA_CMD, 0x100, DATA_CMD, 0x100, DATA_CMD, 0x300],
    );
    show(
        rt,
        &mut [Sign::Stop; 16],
        "RESTART on a busy bus:",
        &[TAR, 0x50, DATA_CMD, 0x012, DATA_CMD, 0x434, DATA_CMD, 0x256],
    );
    show(
        rt,
        &mut [Sign::Stop; 16],
        "RESTART on an idle bus:",
        &[TAR, 0x50, DATA_CMD, 0x412, DATA_CMD, 0x234],
    );
    show(
        rt,
        &mut [Sign::Stop; 16],
        "STOP, then again:",
        &[TAR, 0x50, DATA_CMD, 0x212, DATA_CMD, 0x300],
    );
}

// Logs with other entries, and with none: reads, marks, other registers and an odd last word add nothing.
fn others(rt: HostRuntime) {
    show(
        rt,
        &mut [Sign::Stop; 16],
        "other entries:",
        &[
            0x26c, 0, TAR, 0x50, 0x26c, 1, 0x134, 0x10, DATA_CMD, 0x2a5, 0x300, 0, 0x110, 0x55,
            0x230, 0x210,
        ],
    );
    show(
        rt,
        &mut [Sign::Stop; 16],
        "odd last word:",
        &[TAR, 0x50, DATA_CMD, 0x25a, DATA_CMD],
    );
    show(rt, &mut [Sign::Stop; 16], "no address:", &[DATA_CMD, 0x25a]);
    show(rt, &mut [Sign::Stop; 16], "no words:", &[TAR, 0x50]);
    show(
        rt,
        &mut [Sign::Stop; 2],
        "two places:",
        &[TAR, 0x50, DATA_CMD, 0x700],
    );
}

fn main(rt: HostRuntime) {
    single(rt);
    several(rt);
    others(rt);
}
