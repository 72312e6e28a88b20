//! The command that cuts a film into segments for any web server to serve: [`segment`] writes the files of
//! a film's segments and their playlist (RFC 8216).
//!
//! Read [`segment`] first. Each code with its cause is `specs/Outcome.antt`. Files are its house's.
#![tactic(auto)]

mod film;
mod put;
mod segments;
mod shelf;
mod stop;
mod whole;
mod words;

pub use segments::segment;
