//! Proves that messages written as chunks are read back.
//!
//! The law is [`what_is_written_is_read`]; its words are `specs/ReadBack.antt`. It has no code that runs.
#![tactic(auto)]

mod laws;

pub use laws::what_is_written_is_read;
