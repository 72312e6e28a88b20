//! Writes the items of a stream as a transport stream (ISO/IEC 13818-1): AVC as access units, AAC in ADTS
//! frames, and the tables that name them.
//!
//! Read `TsWriter::item` first. The whole text of a list of items is `ts_text` (`specs/Text.antt`). The crate
//! appends to bytes in memory; it writes no file.
#![tactic(auto)]

mod ahead;
mod framed;
mod in_force;
mod laws;
mod left;
mod multiplex;
mod part;
mod stop;
mod units;
mod writer;

pub use laws::a_frame_of_sound;
pub use left::{Left, Wrote};
pub use writer::TsWriter;
