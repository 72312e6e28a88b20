//! `relay serve`: workers over shared ports, recorders, and the report of each stream.
//!
//! Read [`serve`] first. Each code with its cause is in `specs/Ends.antt`, and the report in
//! `specs/Counts.antt`. The recordings are in `specs/Recordings.antt`, and the worker of HTTP players in
//! `specs/Http.antt`. Its house has the sockets and files. The steps of `serve` are public for
//! `edge_serve`, which does the same beside an edge.
#![tactic(auto)]

mod beside;
mod counting;
mod ending;
mod http;
mod laws;
mod reading;
mod serving;
mod starting;

pub use http::ServeHttp;
pub use laws::recordings_law;
pub use reading::{ReadFail, read_text};
pub use serving::{
    Ending, Ready, code_of, conclude, make_ready, ready_workers, refuse, run_workers, serve,
    unopened,
};
pub use starting::{OpenFail, ServeWorker};
