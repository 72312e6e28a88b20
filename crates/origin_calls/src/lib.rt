//! The calls of an edge at its place, for the gifts that its client is told of the stream of another relay,
//! its origin; and the laws of these calls.
//!
//! Read `specs/Calls.antt` first: the calls for all that an edge is told. `relayed_law` is the theorem above
//! it. If nobody else publishes at its place, the units of a lawful stream that players here are sent are
//! lawful by that stream. Its words are `specs/Origin.antt` and `specs/Relayed.antt`. The crate has no code
//! that runs: `origin_pull` makes the calls.
#![tactic(auto)]

mod calls_law;
mod relayed;

pub use calls_law::{broadcasts_law, worked_examples};
pub use relayed::{numbers_law, relayed_law};
