//! A live stream as segments of a transport stream (ISO/IEC 13818-1) and a sliding playlist of them (RFC 8216), over its
//! broadcasts and over steps back in time.
//!
//! Read `LiveSegmenter::item` first. Where it cuts is `live` (`specs/Live.antt`), the playlist `specs/Listing.antt`. It makes no
//! files.
#![tactic(auto)]

mod cut;
mod cutter;
mod laws;
mod listing;
mod rows;
mod segmenter;

pub use cut::{Cut, CutFail};
pub use laws::{
    a_target_covers_all, broadcasts_begin_anew, lists_are_bounded, numbers_go_on,
    segments_are_live, whole_unless_held, worked_playlists,
};
pub use segmenter::LiveSegmenter;
