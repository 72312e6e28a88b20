//! `relay hls`: the series of its files, and the messages on standard error.

use crate::adapters::Reading;
use crate::{BAD_INPUT, BAD_WORDS, LEFT_OUT, NO_MEMORY, READ_FAULT, status, tell_fault};
use hls_command::{asked_of, hls};
use relay_base::Status;
use series_files::RealSeries;
use std::fs::{File, Files};
use std::io::Eprint;

/// Cuts standard input into files with a playlist that slides over them, and says why it didn't do all of it.
pub fn command<T: Sync + Eprint + Files<File = File>>(
    host: &HostRuntime,
    rt: &T,
    words: &[Vec<u8>],
) -> Status {
    let Some((name, _, keep)) = asked_of(words) else {
        return status(BAD_WORDS);
    };
    let listed = if keep == usize::MAX {
        None
    } else {
        Some(keep as u64)
    };
    let Ok(mut series) = RealSeries::new(rt, host.alloc(), name, listed) else {
        return status(NO_MEMORY);
    };
    let mut input = Reading::new(host.reader());
    let ended = hls(host.alloc(), words, &mut input, &mut series);
    series.clear();
    let place = ended.place;
    match ended.code {
        READ_FAULT => tell_fault(host, "standard input", input.error()),
        BAD_INPUT => {
            let _ = eprintln!(host; "relay: standard input is not FLV from byte {place} on");
        }
        NO_MEMORY => {
            let _ = eprintln!(host; "relay: out of memory");
        }
        LEFT_OUT => {
            let _ = eprintln!(host; "relay: audio or video frames were left out");
        }
        _ => {}
    }
    ended
}
