//! A player's cursor: the player's position among the items of a stream, and the facts it needs about the
//! items that it was sent.
//!
//! Read [`Cursor`] first. It keeps the number of the next item, the last number of each configuration that
//! was sent, and whether each frame since the last keyframe was sent. The answer to a Take depends on nothing
//! else of the items sent before, so a cursor takes no memory. Contracts say for which items and numbers sent
//! a cursor stands, and how each call changes them. It holds no items.
#![tactic(auto)]

mod cursor;

pub use cursor::Cursor;
