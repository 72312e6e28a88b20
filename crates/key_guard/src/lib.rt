//! The stream keys that a stream takes, and guards that carry the fact that they answer by this rule.
//!
//! Read [`by_name`] first. A key is the text that a client writes after `?` in the name of a stream. The
//! grants of a stream list the keys that it takes, either as they are or by their SHA-256 digests
//! (FIPS 180-4). A file of digests holds no key itself. If many names share one list, a digest is that of a name
//! and a key, so that a key is valid for one name alone. No call takes memory.
#![tactic(auto)]

mod check;
mod guard;

pub use av_unit::KeyList;
pub use check::{Grants, Mode, by_digest, by_name, by_named};
pub use guard::{Check, Guard, Guards};
