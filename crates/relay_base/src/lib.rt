//! Limits, statuses, and numbers read from bytes.
//!
//! Read [`be24`] first. Nearly every crate takes [`Limits`] or answers with a [`Status`]. The definitions of
//! the numbers are in `specs/Numbers.antt`. This crate reads no texts.
#![tactic(auto)]

mod limits;
mod numbers;

pub use limits::{Limits, Status};
pub use numbers::{be16, be24, be32, le32};
