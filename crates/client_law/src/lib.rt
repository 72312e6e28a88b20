//! A client and a session that read each other.
//!
//! Read [`push_law`] and [`pull_law`] first; their words are `specs/Laws.antt`. The crate has no code that
//! runs.
#![tactic(auto)]

mod laws;

pub use laws::{
    item_law, order_law, pull_bytes_law, pull_law, push_bytes_law, push_bytes_so_far_law, push_law,
    push_so_far_law, session_readable_law,
};
