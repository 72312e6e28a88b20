//! A client and a session that read the bytes that the other owes never refuse a byte of them.
//!
//! Read [`a_session_is_ended_by_no_byte`] and [`a_client_is_ended_by_a_refusal_alone`] first; their words are
//! `specs/Refusals.antt`. The crate has no code that runs.
#![tactic(auto)]

mod laws;

pub use laws::{
    a_client_is_ended_by_a_refusal_alone, a_client_that_is_granted_is_ended_by_no_byte,
    a_session_begins_once, a_session_is_ended_by_no_byte,
};
