//! A series of files, each of which is written from its first byte to its last, and the listing that names those that have ended.
//!
//! Read [`FileSeries`] first. The meaning of its calls is `specs/Series.antt`. This crate opens no file: `relay_edge` does.
#![tactic(auto)]

mod calls;
mod mem_series;
mod series;

pub use mem_series::MemSeries;
pub use series::{FileSeries, SeriesFail};
