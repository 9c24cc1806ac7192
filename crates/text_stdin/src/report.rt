// What a program says on standard error where its input was not read to the end, or its output not written.
use super::reads::End;
use std::io::Print;

// Where standard error cannot be written either, there is nobody left to tell.
fn say(rt: HostRuntime, name: &[u8], text: &[u8]) {
    let err = rt.stderr();
    let _ = err.write_all(name);
    let _ = err.write_all(text);
}

// Nothing where the input has ended. A program that leaves it open has counted all its turns.
pub fn unread(rt: HostRuntime, name: &[u8], end: End) {
    match end {
        End::Open | End::OutOfTurns => say(rt, name, b": standard input was not read to its end\n"),
        End::Ended => {}
        End::Failed => say(rt, name, b": standard input could not be read\n"),
    }
}

// Where a write failed.
pub fn unwritten(rt: HostRuntime, name: &[u8]) {
    say(rt, name, b": standard output could not be written\n");
}

// Where a program stops: whether all was written, and how its input stands. `written` stays a bool beside the
// end: who calls this knows both, and a write that has failed is told of alone.
pub fn stopped(rt: HostRuntime, name: &[u8], written: bool, end: End) {
    if written {
        unread(rt, name, end);
    } else {
        unwritten(rt, name);
    }
}
