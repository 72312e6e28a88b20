//! The writer of RTMP chunks.
//!
//! The section numbers are those of Adobe's RTMP 1.0.
//!
//! Read `Writer::begin` first. The chunks of a message are defined in `specs/Rule.antt`. It sends nothing,
//! and it doesn't interleave two messages.
#![tactic(auto)]

mod begun;
mod chunks;
mod heading;
mod lasts;
mod laws;
mod lengths;
mod rule;
mod sending;
mod writer;

pub use begun::Begun;
pub use heading::Heading;
pub use laws::{chunks_are_those_of_put, writing_goes_on};
pub use rule::chunk_stream;
pub use sending::Sending;
pub use writer::Writer;
