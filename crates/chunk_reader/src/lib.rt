//! The reader of RTMP chunks: bytes in pieces of any cutting, and the messages that they carry.
//!
//! The section numbers are those of Adobe's RTMP 1.0.
//!
//! Read `Reader::feed` first. The messages of bytes are `reads` (`specs/Reads.antt`), the places of refusals
//! are in `specs/Stops.antt`. This crate answers no control message, and it doesn't acknowledge.
#![tactic(auto)]

mod fail;
mod fields;
mod finish;
mod header;
mod laws;
mod open;
mod reader;
mod take;

pub use fail::{ReadCause, ReadFail};
pub use laws::{
    a_message_ends_with_its_last_byte, beginnings_are_read, each_is_read_or_refused,
    messages_are_short, one_reading, one_refusal, refused_bytes_are_not_read,
    refused_bytes_stay_refused,
};
pub use reader::{Fed, Reader};
