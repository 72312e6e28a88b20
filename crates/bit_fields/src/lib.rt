//! Fields of bits, as the tables of standards list them: the first field has the highest bits.
//!
//! The definitions are in `specs/Fields.antt`. Read its one law, [`each_field_is_read_back`], first: fields
//! that are put together so are taken apart so. This crate has no code that runs.
#![tactic(auto)]

mod laws;

pub use laws::each_field_is_read_back;
