//! `relay loop`: its messages on standard error.

use crate::adapters::{Reading, Writing};
use crate::{BAD_INPUT, NO_MEMORY, READ_FAULT, UNFINISHED, WRITE_FAULT, tell_fault};
use loop_command::loop_run;
use relay_base::Status;
use std::io;

/// Sends standard input through the relay and back to standard output, and says why it didn't do all of it.
pub fn command(host: &HostRuntime, words: &[Vec<u8>]) -> Status {
    let mut input = Reading::new(host.reader());
    let mut out = Writing::new(io::writer(host));
    let ended = loop_run(host.alloc(), words, &mut input, &mut out);
    let place = ended.place;
    match ended.code {
        READ_FAULT => tell_fault(host, "standard input", input.error()),
        BAD_INPUT => {
            let _ = eprintln!(host; "relay: standard input is not FLV from byte {place} on");
        }
        WRITE_FAULT => tell_fault(host, "standard output", out.error()),
        NO_MEMORY => {
            let _ = eprintln!(host; "relay: out of memory");
        }
        UNFINISHED => {
            let _ = eprintln!(host; "relay: the file didn't come back");
        }
        _ => {}
    }
    ended
}
