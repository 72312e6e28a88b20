//! Reads an HTTP request and writes the head of its answer: the head of the request, its target, and the head
//! of the answer.
//!
//! The section numbers are those of RFC 9112.
//!
//! Read [`read_head`] first. The result for a head is `specs/Heads.antt`, the names of a target
//! `specs/Targets.antt`. It reads no bodies.
#![tactic(auto)]

mod answer;
mod head;
mod laws;
mod target;

pub use answer::{Refusal, ok_text, refusal_text};
pub use head::{HEAD_MOST, Head, read_head};
pub use laws::{decided_heads_stay, heads_are_read_one_way, nothing_is_unfinished};
pub use target::{Names, is_get, names_in};
