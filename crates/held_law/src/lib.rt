//! The law that bounds the memory of a server: the sum of all that it holds, in bytes.
//!
//! Its one law is [`all_together_hold_at_most_the_sum`]. It has no code that runs.
#![tactic(auto)]

mod laws;

pub use laws::all_together_hold_at_most_the_sum;
