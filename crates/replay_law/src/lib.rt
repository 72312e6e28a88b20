//! Two runs of one script print the same, but for the number of bytes that all hold together.
//!
//! The law is [`two_outputs_of_a_script_differ_in_the_total_alone`]. Its words are `specs/Outputs.antt`,
//! and `proofs/Alike.antt` says the facts that the two runs have in common after each line. It stands on
//! `turn_law`, which says the same of one turn of a session. Of scripts that open players over HTTP or
//! edges it says nothing. It has no code that runs.
#![tactic(auto)]

mod laws;

pub use laws::two_outputs_of_a_script_differ_in_the_total_alone;
