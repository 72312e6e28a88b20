//! A series of files on the disk.
//!
//! Read `RealSeries` first. It meets the clauses of `FileSeries`, and no clause tells its bytes: tests with real files
//! do. It doesn't choose where a file ends, and it keeps no bytes.
#![tactic(auto)]

mod series;

pub use series::RealSeries;
