//! Two turns of a session on one thread do the same, if the sessions were alike.
//!
//! Read [`a_turn_on_one_thread_is_a_function`] first, then [`a_close_on_one_thread_is_a_function`]; their
//! words are `specs/Twins.antt`. Of a session the law leaves free how far the pending messages are encoded,
//! and the part of a history that its pass has seen. The crate has no code that runs.
#![tactic(auto)]

mod laws;

pub use laws::{a_close_on_one_thread_is_a_function, a_turn_on_one_thread_is_a_function};
