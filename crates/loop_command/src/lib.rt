//! A film through the relay and back, on one thread: [`loop_run`] publishes it by a client at one session,
//! and plays it by another client at a second, over one stream.
//!
//! Read [`loop_run`] first. The command's outcome is specified in `specs/Outcome.antt`, the film that comes
//! back in `specs/Looped.antt`, and its run, turn for turn, in `specs/Course.antt`. It opens no connection,
//! and never waits.
#![tactic(auto)]

mod desk;
mod ending;
mod film;
mod line;
mod playing;
mod publishing;
mod rounds;
mod run;
mod stop;
mod talk;
mod words;

pub use line::Line;
pub use rounds::{Run, Stage};
pub use run::loop_run;
