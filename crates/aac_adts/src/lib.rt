//! AAC audio in ADTS frames: the configuration of a decoder (ISO/IEC 14496-3, 1.6.2.1), and the frames that
//! have it in their headers (1.A.2.2).
//!
//! Read [`adts`] first. The bits of the configuration are in `specs/Config.antt`, those of a frame in
//! `specs/Frame.antt`. This crate decodes no audio.
#![tactic(auto)]

mod asc;
mod fail;
mod frame;

pub use asc::Asc;
pub use fail::AacFail;
pub use frame::{adts, read_adts};
