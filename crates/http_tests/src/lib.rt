//! Tests of the reading of HTTP requests: their heads, and the names in their targets.
//!
//! Read `heads` first, then `targets`. The crate proves no law, and opens no sockets.
#![tactic(auto)]

#[cfg(test)]
mod heads;
#[cfg(test)]
mod targets;
