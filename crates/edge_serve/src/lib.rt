//! `relay edge`: all that `relay serve` does, and beside its workers one edge, which pulls a stream of
//! another relay, its origin.
//!
//! Read [`edge`] first. Each code with its cause is in `specs/Ends.antt`, the edge's pull in
//! `specs/Pulls.antt`, and its line in the report in `specs/Line.antt`. The rest of the report, and the
//! steps of a server, are `relay_serve`'s; the calls of an edge are `origin_calls`'. It connects nothing:
//! it is handed a link.
#![tactic(auto)]

mod driving;
mod line;
mod pulling;
mod serving;
mod telling;
mod words;

pub use serving::{Edged, edge};
pub use words::edge_target;
