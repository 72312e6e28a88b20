//! The dialogue of RTMP's commands (RTMP 1.0, section 7.2). It gives the meaning of each message of a peer, its
//! answer, and the one call at a stream that it makes. It knows no socket, no stream and no guard.
//!
//! Read `Dialog::asks` and `Dialog::step` first. The meaning of a message is `specs/Meaning.antt`, its
//! effects `specs/Dialog.antt`.
#![tactic(auto)]

mod calls;
mod dialog;
pub mod laws;
mod lists;
mod meaning;
mod says;
mod talk;
mod types;
mod words;

pub use dialog::Dialog;
pub use lists::{App, MessageList};
pub use says::{begin_messages, end_messages};
pub use talk::{Met, Talk};
pub use types::{Act, Acts, Ask, DialogFail, Grant, Meant, Phase, Playing, Role, Switch};
