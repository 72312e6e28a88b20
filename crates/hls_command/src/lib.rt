//! The command that cuts a film into HLS segments that follow its broadcasts: [`hls`] writes the files of its segments, and after
//! each of them the sliding playlist (RFC 8216).
//!
//! Read [`hls`] first. Each exit code with its cause is `specs/Outcome.antt`, and what is written is `specs/Written.antt`.
#![tactic(auto)]

mod film;
mod hls_files;
mod laws;
mod stop;
mod whole;
mod words;
mod write;

pub use hls_files::hls;
pub use laws::files_are_segments;
pub use words::asked_of;
