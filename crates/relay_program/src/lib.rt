//! The commands of the relay.
//!
//! [`run`] takes the words after the program's name and calls the command that they name. [`drill`] answers
//! a script of calls at one stream or pool, a reply line for each call. [`replay`] runs a script of
//! connections, and prints at its end the bytes that each was sent and its ending. [`soak`] makes a long
//! run of a publisher and three players. [`remux`] makes a transport stream of a file of FLV, and [`check`]
//! tells the units of a transport stream. Each command says how it ended by the exit code of its
//! [`Status`](relay_base::Status):
//!
//! | Code | Comes |
//! |---|---|
//! | 0 | the input was read to its end, or the soak was made |
//! | 2 | exactly if the words aren't those of a command; nothing is read or written |
//! | 3 | only if the source's faults rose |
//! | 4 | exactly if the line at `place` is the first outside the grammar, or the file is first refused at the byte `place` |
//! | 5 | only if the sink's faults rose |
//! | 6 | for want of memory, or if a session of a soak isn't idle after 1,000,000 turns |
//! | 8 | `remux` alone: the input was read to its end, and a unit of audio or video was left out |
//!
//! Read [`run`] first. The output of a drill is specified in `specs/Drill.antt`, and its ending in
//! `specs/Outcome.antt`. For a replay these are `specs/Replay.antt` and `specs/Replayed.antt`, for a soak
//! `specs/Soaked.antt`. The actions of a script's lines are `stream_core`'s and `relay_replay`'s, and the
//! files are `file_commands`'; standard input and output are `relay_main`'s.
#![tactic(auto)]

mod drill_law;
mod drills;
mod made;
mod replay_law;
mod replays;
mod runs;
mod soaks;

pub use drill_law::what_a_drill_answers;
pub use drills::drill;
pub use file_commands::{check, remux};
pub use replay_law::what_a_replay_prints;
pub use replays::replay;
pub use runs::{Command, command_of, run};
pub use soaks::soak;
