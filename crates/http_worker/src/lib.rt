//! A worker of HTTP players: it has a port to the streams, a door, and its players with their links, and
//! takes rounds of turns.
//!
//! Read `HttpWorker::round` first. `specs/Rounds.antt` specifies a round, and `specs/Books.antt` the
//! knowledge of links and players. It has no recorders, and starts no threads.
#![tactic(auto)]

mod bench;
mod laws;
mod telling;
mod worker;

pub use bench::{Bench, Seated, Terms};
pub use laws::{apart_law, settled_law};
pub use telling::Request;
pub use worker::{HttpFinished, HttpWorker};
