//! Reads a transport stream (ISO/IEC 13818-1) back into its video and audio units. It reads the form that
//! `ts_writer` writes: one program with at most one AVC stream and one AAC stream, whose PES packets don't
//! interleave.
//!
//! Read `TsReader::feed` first. The units of bytes are `specs/Reads.antt`, the fields of packets
//! `specs/Fields.antt`. Other forms of transport streams are refused, at their byte.
#![tactic(auto)]

mod fail;
mod header;
mod laws;
mod packet;
mod payload;
mod reader;
mod state;
mod tables;
mod unit;

pub use fail::TsFail;
pub use laws::{
    a_byte_stream_is_nal_units, beginnings_are_read, one_end, one_reading, one_refusal,
    refused_bytes_are_not_read, refused_bytes_stay_refused, written_tables_are_read,
};
pub use reader::{TsFed, TsReader};
pub use unit::TsUnit;
