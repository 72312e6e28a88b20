//! The bytes that a session owes: those that it is to send for its input and its own calls. They are one
//! definition, which doesn't depend on how the input was cut. The laws say how they grow with each step of a
//! session.
//!
//! The section numbers are those of Adobe's RTMP 1.0.
//!
//! Read [`growth_law`] first. `specs/Owed.antt` defines the bytes owed, `specs/Published.antt` the units
//! published. The crate has no code that runs.
#![tactic(auto)]

mod chunks;
mod growth;
mod steps;

pub use chunks::chunks_law;
pub use growth::{cutting_law, growth_law, published_law};
pub use steps::{bytes_step, hand_step, item_step, message_step, new_step, reply_step, send_step};
