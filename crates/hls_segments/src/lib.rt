//! Cuts a recording into segments of a transport stream (ISO/IEC 13818-1), and writes their playlist (RFC
//! 8216), for any web server to serve.
//!
//! Read `Segmenter::item` first. Its cuts are `segments` (`specs/Cuts.antt`), the playlist
//! `specs/Playlist.antt`. It makes no files: `segment_command` does.
#![tactic(auto)]

mod cut;
mod laws;
mod playlist;
mod segmenter;
mod times;

pub use cut::{Cut, CutFail};
pub use laws::{a_target_covers_all, segments_are_cut, segments_are_read, worked_playlists};
pub use playlist::file_name;
pub use segmenter::Segmenter;
