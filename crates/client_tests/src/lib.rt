//! Tests of whole clients, over links in memory.
//!
//! Read `tests.rt`: it has a client that plays, one that publishes and one that is refused. The crate opens
//! no sockets.
#![tactic(auto)]

#[cfg(test)]
mod tests;
