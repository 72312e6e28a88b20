//! The headers of RTMP chunks, the meaning of a chunk, and the messages that chunks carry.
//!
//! The section numbers are those of Adobe's RTMP 1.0.
//!
//! Read [`read_head`] first. The meaning of a chunk between two states is in `specs/Chunk.antt`, the layout
//! of its bytes in `specs/Layout.antt`. This crate keeps no message and no connection: the reader and the
//! writer do.
#![tactic(auto)]

mod headers;
mod kept;
mod laws;
mod message;
mod read;
mod write;

pub use headers::{Basic, Head};
pub use kept::{ChunkStream, Terms};
pub use laws::{
    chunks_are_read_so, headers_are_read_so, heads_are_read_back, ids_are_written_shortest,
};
pub use message::Message;
pub use read::{read_basic, read_head};
pub use write::write_head;
