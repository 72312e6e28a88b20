//! The packets of a transport stream (ISO/IEC 13818-1): those of a section and of a PES packet. The crate has
//! also the header of a PES packet, the sections of the two tables, and the check of a section.
//!
//! Read [`put_pes`] first. The packets are defined in `specs/Packet.antt`, the tables' sections in
//! `specs/Tables.antt`. This crate doesn't order the packets: the writer does.
#![tactic(auto)]

mod check;
mod flags;
mod header;
mod packet;
mod packets;
mod tables;

pub use check::crc;
pub use flags::PesFlags;
pub use header::pes_header;
pub use packets::{put_pes, put_section};
pub use tables::{AUDIO_PID, PAT_PID, PMT_PID, VIDEO_PID, pat_section, pmt_section};
