//! Workers of the relay: each has a port to the streams, a door, its sessions with their links, and
//! recorders with their files, and takes rounds of turns.
//!
//! Read `Worker::round` first. `specs/Rounds.antt` specifies a round, and `specs/Books.antt` the knowledge
//! of links and sessions. It starts no threads of its own: [`run_all`] is handed them.
#![tactic(auto)]

mod bench;
mod hints;
mod laws;
mod recorder;
mod round;
mod running;
mod telling;
mod worker;

pub use bench::{Bench, Seated, Terms, leaves_due};
pub use hints::{open_number, pushes_at, stream_number};
pub use laws::{published_law, ready_law, settled_law};
pub use recorder::{Parted, Recorder, RecordingForm};
pub use round::Round;
pub use running::run_all;
pub use telling::{Request, tell_missed};
pub use worker::{Finished, Worker};
