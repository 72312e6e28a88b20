//! Scripts: the meaning of each line, and the lines that answer them.
//!
//! A script is lines that end with an LF, which may lack after the last. [`drill_line`] gives the meaning of
//! one line of a drill's script, [`replay_line`] that of a replay's, and [`reply_text`] the line that answers a call.
//!
//! Read [`drill_line`] first. This crate makes no calls: the meaning of a line is carried out by its caller.
#![tactic(auto)]

mod laws;
mod line;
mod replay;
mod text;

pub use laws::{kind_law, lines_law, number_law};
pub use line::{DrillLine, LineFail, count_of, drill_line};
pub use replay::{Form, ReplayLine, Side, replay_line};
pub use text::{held_text, reply_line_law, reply_text};
