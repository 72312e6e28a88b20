//! AVC video as NAL units, and a decoder's configuration record (ISO/IEC 14496-15, 5.3.3.1). In FLV each unit
//! stands behind its length (14496-15, 5.3.4.2), in a transport stream behind a start code (ISO/IEC 14496-10,
//! annex B).
//!
//! Read [`to_annexb`] first. Units behind lengths are defined in `specs/Prefixed.antt`, units behind start
//! codes in `specs/AnnexB.antt`, and the record in `specs/Record.antt`. This crate decodes no video.
#![tactic(auto)]

mod annexb;
mod avcc;
mod fail;
mod list;
mod nal;
mod prefixed;
mod split;

pub use annexb::to_annexb;
pub use avcc::Avcc;
pub use fail::AvcFail;
pub use list::NalList;
pub use nal::first_triple;
pub use prefixed::{nals, put_nals};
pub use split::split_annexb;
