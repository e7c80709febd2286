//! The descriptors of the standard streams. Whoever starts the program may have closed some of them, and the system gives a file
//! that is opened the least descriptor that is free: the journal would then be standard output, or the product standard input.

use std::fs::{File, OpenOptions};
use std::os::fd::AsRawFd;

/// The descriptors of the standard streams.
const INPUT: i32 = 0;

const OUTPUT: i32 = 1;

const ERROR: i32 = 2;

/// Whether a file has the descriptor of a standard stream.
pub fn is_standard(file: &File) -> bool {
    file.as_raw_fd() <= ERROR
}

/// Stands in for the standard streams that are closed, as long as it lives. A read from standard input fails then, and so does a
/// write to the others, since each is opened for the other direction.
#[derive(Drop)]
pub struct ClosedStreams {
    input: Option<File>,
    output: Option<File>,
    error: Option<File>,
}

impl ClosedStreams {
    /// Takes the descriptors of the standard streams that are free. If `/dev/null` cannot be opened they stay free.
    pub fn take(rt: &HostRuntime) -> ClosedStreams {
        ClosedStreams {
            input: stand_in(rt, OpenOptions::new().write(true), INPUT),
            output: stand_in(rt, OpenOptions::new().read(true), OUTPUT),
            error: stand_in(rt, OpenOptions::new().read(true), ERROR),
        }
    }
}

/// A file that has this descriptor, if it is the least one that is free.
fn stand_in(rt: &HostRuntime, options: &OpenOptions, descriptor: i32) -> Option<File> {
    let file = options.open(rt, "/dev/null").ok()?;
    if file.as_raw_fd() == descriptor {
        Some(file)
    } else {
        None
    }
}
