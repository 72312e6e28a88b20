//! Reads and writes the file format FLV: a header, and a tag for each unit of audio, video or script data.
//!
//! The section numbers are those of Adobe's FLV 10.1, annex E.
//!
//! Read `TagReader::feed` first. The tags of bytes are `specs/Reads.antt`, the bytes of tags
//! `specs/Text.antt`. It opens no file, and doesn't look into the bodies.
#![tactic(auto)]

mod fail;
mod laws;
mod part;
mod reader;
mod tag;
mod writing;

pub use fail::FlvFail;
pub use laws::{
    a_file_is_read_back, beginnings_are_read, one_reading, one_refusal, refused_bytes_are_not_read,
    what_is_written_is_a_file,
};
pub use reader::{TagFed, TagReader};
pub use tag::Tag;
pub use writing::{write_body, write_header, write_item, write_tag};
