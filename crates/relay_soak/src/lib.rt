//! A long run over links in memory, which shows that a relay holds no more than it may however long it runs.
//!
//! Read [`soak_text`] first: it makes the run and gives the text that is printed of it. One session
//! publishes units on a stream, and three play it. One takes a turn after each unit, one after every second
//! and one after every third. It opens no sockets.
#![tactic(auto)]

mod clients;
mod law;
mod run;
mod units;

pub use law::what_was_sent_begins_what_is_owed;
pub use run::soak_text;
