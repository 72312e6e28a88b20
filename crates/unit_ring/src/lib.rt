//! The bounded ring of a stream (the GOP cache).
//!
//! Read [`Ring`] first. It answers for every item that was ever pushed, and keeps only those in the window.
//! These are the items from the base on, and the three configurations in effect there. All its slots are
//! taken when it is made. A push drops the items below the base, each once, and takes no memory. No call
//! walks over the slots. Contracts see a ring as its limits and all items pushed. It keeps no players.
#![tactic(auto)]

mod kept;
mod marks;
mod newest;
mod ring;
mod window;

pub use ring::Ring;
