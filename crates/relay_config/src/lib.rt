//! The configuration of a relay: its addresses, its limits, its streams, the applications in which a
//! publisher may name a stream, and the keys to publish and play. A configuration is a TOML text of at most
//! 1,048,576 bytes; docs/use/configuration.md has each key with its range and its default.
//!
//! Read [`read_config`] first. It answers the configuration of a text that is accepted, and else the first
//! test that the text fails. A configuration tells its bound of memory, its sum, before anything runs. A
//! configuration whose sum is above 6,442,450,944 bytes is refused. This crate opens no file and no address.
#![tactic(auto)]

mod check;
mod config;
mod forms;
mod key;
mod read;
mod report_line;
mod rows;
mod total;
mod values;
mod whole;

pub use config::{Config, ConfigFail, OpenRule, OpenRules, PlaceList, PlaceRule};
pub use key::Key;
pub use read::read_config;
pub use report_line::report;
pub use total::{http_room, http_workers, player_links, players_sum, session_links, sum, sum_of};
