//! The bytes that a client of an RTMP server owes, and the news of the stream that it plays, as definitions.
//!
//! The bytes owed are those to be sent for the bytes that it was sent and for the tags that it was given. The
//! definitions don't depend on how the input was cut; the laws say how both grow with each step of a client.
//!
//! The section numbers are those of Adobe's RTMP 1.0.
//!
//! Read [`growth_law`] first. `specs/Owed.antt` defines the bytes owed, `specs/Pulled.antt` the gifts told.
//! The crate has no code that runs but types.
#![tactic(auto)]

mod growth;
mod steps;
mod types;

pub use growth::{gift_law, growth_law, worked_examples};
pub use steps::{
    bytes_step, give_step, greet_step, hand_step, message_step, new_step, send_step, take_step,
};
pub use types::{Asked, Gave, Gift, Given, News, Phase, Wish};
