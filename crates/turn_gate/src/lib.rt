//! A gate: threads call one machine, one call at a time and with no waiting, and each call has its place in
//! one history.
//!
//! Read `Gate::call` first: it makes one call, or answers that another thread makes one. The rules of a turn
//! are in `specs/TurnTable.antt`, the facts known of a history in `specs/Known.antt`. It never waits, and
//! doesn't promise that a thread gets the turn.
#![tactic(auto)]

mod gate;
mod machine;
mod pass;
mod rule;
mod serve;
mod view;

pub use gate::{CallFail, Gate};
pub use machine::Machine;
pub use pass::Pass;
