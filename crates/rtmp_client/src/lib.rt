//! A client of an RTMP server, which publishes a stream or plays it. It takes the bytes of its server, and
//! gives the bytes that it owes and the gifts of the stream that it plays.
//!
//! The section numbers are those of Adobe's RTMP 1.0.
//!
//! Read `Client::turn` first. Its rules are `specs/Turns.antt`, its ends with their causes
//! `specs/Causes.antt`. It connects nothing: it is handed a link.
#![tactic(auto)]

mod answers;
mod client;
mod core_fields;
mod end;
mod giving;
mod held;
mod input;
mod known;
mod learning;
mod outgoing;
mod spelled;
mod steps;
mod take_input;
mod turn_steps;

pub use client::Client;
pub use core_fields::Core;
pub use end::{ClientEnd, ClientTurn};
pub use outgoing::Outgoing;
