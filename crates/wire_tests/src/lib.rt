//! Tests of numbers, units, keys and the in-memory outside, and of the bytes on the wire: chunks, values,
//! commands, the handshake and the dialogue.
//!
//! Read `rows.rt` first: it splits the inputs of many tests. The crate has tests alone, and opens no socket.
#![tactic(auto)]

#[cfg(test)]
mod amf;
#[cfg(test)]
mod capture;
#[cfg(test)]
mod commands;
#[cfg(test)]
mod dialog;
#[cfg(test)]
mod handshake;
#[cfg(test)]
mod keys;
#[cfg(test)]
mod numbers;
#[cfg(test)]
mod outside;
#[cfg(test)]
mod reading;
#[cfg(test)]
mod rows;
#[cfg(test)]
mod units;
#[cfg(test)]
mod window;
#[cfg(test)]
mod wire;
#[cfg(test)]
mod writing;
