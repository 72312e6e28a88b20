//! The calls and replies of a stream or a pool of slots, and their rules as definitions.
//!
//! Read `Call` and `Reply` first. The definitions stand in `specs/`. Those of a stream are the items that a
//! history has published, the window that the limits leave of them, the configurations in effect, and the
//! join place. Further ones are whole chains of frames, whether a player lags, the reply to each call after a
//! history, and the items that one player is sent. A slot of a pool is a stream with a name. The slot that a
//! call has, and the conditions under which a slot takes a name, stand in `specs/Pool.antt`. Everything that
//! keeps or serves a stream or a pool cites them. The code here is the types alone, and some worked rows; it
//! keeps no stream.
#![tactic(auto)]

mod calls;
mod examples;
mod names;
mod pool_examples;
mod replies;
mod spare_examples;

pub use calls::{Call, Entry, Shape, StreamLimits};
pub use examples::worked_examples;
pub use names::{ShortName, is_name};
pub use pool_examples::worked_pools;
pub use replies::{Reply, Taken};
pub use spare_examples::worked_spares;
