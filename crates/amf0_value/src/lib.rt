//! AMF0 values: reading them from bytes and writing them.
//!
//! Read [`decode`] first. The grammar for both directions is in `specs/Encoding.antt`, refusals with their
//! places are in `specs/Refusal.antt`. This crate keeps references, and resolves none.
#![tactic(auto)]

mod amf;
mod decoding;
mod fail;
mod fields;
pub mod laws;
mod marker;
mod number;
mod reading;
pub mod walk;
mod writing;

pub use amf::{Amf, AmfList, Pairs};
pub use decoding::{decode, decode_all};
pub use fail::{AmfFail, Cause, Stop};
pub use number::{bits_of, whole_of};
pub use writing::encode;
