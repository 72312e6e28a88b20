//! `relay segment`: the house of its files, and the messages on standard error.

use crate::adapters::{Reading, Writing};
use crate::{
    BAD_INPUT, LEFT_OUT, NO_MEMORY, READ_FAULT, TOO_MANY, WRITE_FAULT, status, tell_fault,
};
use relay_base::Status;
use relay_edge::SegmentHouse;
use segment_command::segment;
use std::fs::{File, Files};
use std::io;
use std::io::Eprint;

/// Cuts standard input into files, writes their playlist to standard output, and says why it didn't do all of it.
pub fn command<T: Sync + Eprint + Files<File = File>>(
    host: &HostRuntime,
    rt: &T,
    words: &[Vec<u8>],
) -> Status {
    let mut input = Reading::new(host.reader());
    let mut out = Writing::new(io::writer(host));
    let mut house = SegmentHouse::new(rt, host.alloc());
    let ended = segment(host.alloc(), words, &mut input, &mut house, &mut out);
    house.clear();
    if house.is_short() {
        return status(WRITE_FAULT);
    }
    let place = ended.place;
    match ended.code {
        READ_FAULT => tell_fault(host, "standard input", input.error()),
        BAD_INPUT => {
            let _ = eprintln!(host; "relay: standard input is not FLV from byte {place} on");
        }
        WRITE_FAULT => tell_fault(host, "standard output", out.error()),
        NO_MEMORY => {
            let _ = eprintln!(host; "relay: out of memory");
        }
        LEFT_OUT => {
            let _ = eprintln!(host; "relay: audio or video frames were left out");
        }
        TOO_MANY => {
            let _ = eprintln!(host; "relay: there are more than 100000 segments");
        }
        _ => {}
    }
    ended
}
