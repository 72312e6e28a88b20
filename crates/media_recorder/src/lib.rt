//! Recorders: players that write the items that they take.
//!
//! A recorder joins a stream, takes its items as any player does, and writes them by a [`Medium`] to a sink.
//! An [`FlvRecorder`] writes FLV, a [`TsRecorder`] a transport stream.
//!
//! Read `Recorder::turn` first. The crate opens no file: a recorder is handed its sink.
#![tactic(auto)]

mod flv;
mod laws;
mod medium;
mod pending;
mod recorder;
mod seat;
mod tape;
mod telling;
mod transport;
mod turn;

pub use flv::{FlvMedium, FlvRecorder};
pub use laws::{still_fits_law, viewer_law};
pub use medium::Medium;
pub use recorder::Recorder;
pub use transport::{TsMedium, TsRecorder};
pub use turn::{Leaving, RecEnd, RecTurn};
