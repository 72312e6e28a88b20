//! The run of a replay's script: its streams and open tables with their keys, its recorders, its sessions,
//! players over HTTP and edges, and the text that is printed of them at its end.
//!
//! A [`Scene`] takes the lines of a script one after another. Links and files are in memory, and the
//! streams and open tables are those of one thread. The printed text of a script that opens sessions alone
//! follows from it but for TOTAL, by the law of crate `replay_law`. Read `specs/Stand.antt` first (the
//! places at which a line may stand), then `specs/Scenes.antt` (its action) and `specs/Prints.antt` (the
//! printed text). The forms of the lines are `relay_script`'s.
#![tactic(auto)]

mod cast;
mod connection;
mod file;
mod guest;
mod places;
mod playing;
mod pulling;
mod recorded;
mod recording;
mod report;
mod scene;
mod served;
mod summary;
mod whole;

// Named by laws of two runs: the answer of a turn, the guest that was opened, and a recorder that is to be.
pub use guest::{Answered, Guest};
pub use recorded::what_was_recorded_is_the_text_of_what_was_taken;
pub use recording::Plan;
pub use scene::Scene;
pub use served::what_was_sent_begins_what_is_owed;
pub use whole::what_a_run_comes_to;
