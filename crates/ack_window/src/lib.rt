//! Control messages of RTMP, and the two windows of acknowledgements that a connection has.
//!
//! The section numbers are those of Adobe's RTMP 1.0.
//!
//! Read [`control_of`] first. Control messages are `specs/Controls.antt`, the windows `specs/Inbound.antt`
//! and `specs/Outbound.antt`. It sends nothing.
#![tactic(auto)]

mod control;
mod inbound;
mod laws;
mod outbound;
mod read;
mod window;
mod write;

pub use control::{BadControl, Control, ping_answer};
pub use inbound::Inbound;
pub use laws::{
    acknowledged_law, acknowledgements_law, controls_are_read_back, held_back_law,
    outbound_window_law,
};
pub use outbound::Outbound;
pub use read::control_of;
pub use write::control_message;
