//! Two runs of one film come to the same: the output of `relay loop`, and whether the film has come back,
//! is a function of the film.
//!
//! The law of the command is [`two_commands_on_a_film_write_the_same`], and that of its run
//! [`two_runs_of_a_film_come_to_the_same`]; their words are `specs/Ends.antt`. They stand on
//! `client_turn_law` and `turn_law`, which say the same of one turn of a client and of a session. Three
//! things are free: whether a command ends for want of memory, whether its source or its sink fails, and
//! the place at which a film is refused. It has no code that runs.
#![tactic(auto)]

mod laws;

pub use laws::{two_commands_on_a_film_write_the_same, two_runs_of_a_film_come_to_the_same};
