//! The standard streams of the program, which may have been closed before it was started.

use std::fs::{File, OpenOptions};
use std::os::fd::{AsRawFd, IntoRawFd};

/// The file that stands for a closed stream.
const NOTHING: &str = "/dev/null";

/// The descriptor of the last of the standard streams.
const LAST: i32 = 2;

// Opens the file for reading, or for writing.
fn open(rt: &HostRuntime, reads: bool) -> Option<File> {
    let mut how = OpenOptions::new();
    how.read(reads).write(!reads);
    how.open(rt, NOTHING).ok()
}

/// Takes the descriptors of the standard streams that are closed, so that no file and no connection gets one of
/// them. Each still fails as a closed stream does: standard input can't be read, and the others can't be
/// written.
pub fn hold_closed(rt: &HostRuntime) {
    for _ in 0..=LAST {
        let Some(file) = open(rt, true) else {
            return;
        };
        match file.as_raw_fd() {
            0 => {
                drop(file);
                if let Some(file) = open(rt, false) {
                    let _ = file.into_raw_fd();
                }
            }
            fd if fd > LAST => return,
            _ => {
                let _ = file.into_raw_fd();
            }
        }
    }
}
