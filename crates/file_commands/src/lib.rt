//! The commands that turn one file into another: [`remux`] makes a transport stream of a file of FLV, and
//! [`check`] prints the units of a transport stream.
//!
//! Read [`remux`] first. The crate opens no files: a command is handed its source and its sink.
//!
//! Each command reads its input as it comes, writes as it goes, and keeps at most one unit besides the piece
//! that it reads and writes at a time. A file has at most 2^36 bytes; the first byte after them is refused.
//! The exit code of a command's [`Status`](relay_base::Status) says how it ended:
//!
//! | Code | Condition | Written |
//! |---|---|---|
//! | 0 | the input was read to its end | all |
//! | 2 | exactly if the words aren't those of the command; nothing is read | nothing |
//! | 3 | only if the source's faults rose | the text of the bytes read, except for at most 65,535 last bytes |
//! | 4 | the input is refused at the byte `place` | the text of the bytes before |
//! | 5 | only if the sink's faults rose | a first part of the text of the bytes read |
//! | 6 | memory was refused | a first part of the text of the bytes read |
//! | 8 | `remux` alone: as 0, and a unit of audio or video was left out | all |
//!
//! `place` is 0 except for code 4.
#![tactic(auto)]

mod cause;
mod checks;
mod convert;
mod fail;
mod left_out;
mod lines;
mod put;
mod remuxes;
mod tags;
mod units;
mod whole;
mod words;

pub use checks::check;
pub use left_out::LeftOut;
pub use remuxes::{Remuxed, remux, remux_and_tell};
