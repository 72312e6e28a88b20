//! The desk of a configuration: the publishes and plays that its streams and open tables grant.
//!
//! Read `PlaceDesk` first, then `specs/Grants.antt`, which says which place decides and which keys it takes. It reads no
//! file: `relay_config` does, and `key_guard` judges keys. It knows no session: a session asks any `Desk`.
#![tactic(auto)]

mod place_desk;

pub use place_desk::{PlaceDesk, grants_law};
