//! No pass is lost: sessions, players over HTTP, edges, recorders and workers keep all passes of a place.
//!
//! Read [`workers_law`] first. A worker that has run by rounds has the passes that it had, after splits and
//! joins among them. So where its last session has gone, all that was split off from its port meanwhile is
//! taken in again, or is a recorder's, and nobody else can call. [`http_workers_law`] says the same of a
//! worker of HTTP players. The crate has no code that runs.
#![tactic(auto)]

mod laws;

pub use laws::{
    edges_law, http_workers_law, players_law, recorders_law, sessions_law, workers_law,
};
