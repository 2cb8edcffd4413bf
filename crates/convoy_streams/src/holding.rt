use std::fs::{File, OpenOptions};
use std::os::fd::{AsRawFd, RawFd};
use std::rt::Files;

/// The descriptor of standard input.
const INPUT: RawFd = 0;

/// The greatest descriptor of a standard stream.
const LAST: RawFd = 2;

/// Files that have the descriptors of standard streams which are closed.
#[derive(Drop)]
pub struct Held {
    _files: [Option<File>; 4],
}

/// Takes the descriptors of the standard streams that are closed, for as long as the answer is kept. The system gives
/// the lowest descriptor that is free: a file that is opened later would else be standard input or output. What is
/// opened here can be neither read as standard input nor written to, so a stream that is closed still fails. It is
/// called before anything else is opened.
pub fn hold_closed<R: Files<File = File>>(rt: &R) -> Held {
    Held {
        _files: [
            held_input(rt),
            held_stream(rt),
            held_stream(rt),
            held_stream(rt),
        ],
    }
}

/// A file that cannot be read, as standard input.
fn held_input<R: Files<File = File>>(rt: &R) -> Option<File> {
    let file = OpenOptions::new().write(true).open(rt, "/dev/null").ok()?;
    (file.as_raw_fd() == INPUT).then_some(file)
}

/// A folder, as the first standard stream that is closed.
fn held_stream<R: Files<File = File>>(rt: &R) -> Option<File> {
    let folder = File::open(rt, "/").ok()?;
    (folder.as_raw_fd() <= LAST).then_some(folder)
}
