//! Recordings as a series of files, one for each broadcast.
//!
//! A recorder writes frames, which say what bytes the open file gets and when it ends (`specs/Frames.antt`). A [`SeriesSink`] reads
//! them and writes the files to a [`file_series::FileSeries`]. An [`FlvSeriesRecorder`] writes a file of FLV for each broadcast, a
//! [`TsSeriesRecorder`] one of a transport stream.
//!
//! Read [`files_law`] first. The broadcasts of items, and their files, are `specs/Broadcasts.antt`. The crate opens no file.
#![tactic(auto)]

mod flv;
mod laws;
mod medium;
mod part;
mod sink;
mod transport;
mod writer;

pub use flv::{FlvFile, FlvSeriesMedium, FlvSeriesRecorder, flv_series_law};
pub use laws::{files_law, frames_law, parts_law};
pub use medium::SeriesMedium;
pub use sink::SeriesSink;
pub use transport::{TsFile, TsSeriesMedium, TsSeriesRecorder, ts_series_law};
pub use writer::FileWriter;
