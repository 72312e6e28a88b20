//! Commands of RTMP: the requests of a peer in messages of AMF0 values, and the bodies of the answers.
//!
//! Read [`command_of`] first. The commands of a body are defined in `specs/Commands.antt`, the bodies of
//! answers in `specs/Answers.antt`. This crate doesn't choose the answer: the dialogue does.
#![tactic(auto)]

mod answer;
mod command;
mod heard;

pub use answer::{Answer, Why, answer_body};
pub use command::{Command, CommandFail, command_of};
pub use heard::{Heard, hear};
