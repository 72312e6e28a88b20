//! Tests of recordings: FLV, transport streams, their readers, writers and recorders, and the commands over
//! files.
//!
//! Read `flv` first: it feeds a file to a reader and compares the text of the tags. The crate proves no law,
//! and opens no file.
#![tactic(auto)]

#[cfg(test)]
mod aac;
#[cfg(test)]
mod avc;
#[cfg(test)]
mod files;
#[cfg(test)]
mod flv;
#[cfg(test)]
mod pes;
#[cfg(test)]
mod recorders;
#[cfg(test)]
mod rows;
#[cfg(test)]
mod series;
#[cfg(test)]
mod starved;
#[cfg(test)]
mod ts_in;
#[cfg(test)]
mod ts_out;
