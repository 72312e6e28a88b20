//! Texts to a sink: all of a text, or a first part of it if the sink fails.
//!
//! Read [`put_all`] first; `specs/Written.antt` defines the part of a text that is written. This crate makes
//! no text and opens no sink.
#![tactic(auto)]

mod put;

pub use put::{PutFail, put_all};
