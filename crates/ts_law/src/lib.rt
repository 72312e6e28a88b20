//! Proves that a stream written as a transport stream is read back.
//!
//! Read `laws.rt` first. The units that are read back are `Bridge` (`specs/Bridge.antt`). It has no code that
//! runs.
#![tactic(auto)]

mod laws;

pub use laws::{
    a_frame_of_sound_is_bridged, a_header_is_read, a_packet_is_read, a_pes_packet_is_read,
    tables_are_read, times_go_on, what_is_written_is_read,
};
