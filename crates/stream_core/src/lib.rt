//! The machine of one stream, and of a pool of slots.
//!
//! Read [`Stream`] first. It answers each call by the rules of one stream (`stream_model`). A new one has had
//! no call, and each call is answered as the definitions say for the calls before it. Contracts see a stream
//! as its limits and its past alone. A [`Pool`] is some streams that take the names that callers give, and
//! answers by the rules of a pool. A [`Table`] is one or the other. It has no threads and no gates:
//! `stream_registry` has.
#![tactic(auto)]

mod place;
mod pool;
mod shared;
mod slot;
mod stream;
mod table;
mod take;
mod tally;

pub use pool::Pool;
pub use stream::Stream;
pub use stream_model::{Call, Entry, Reply, Shape, ShortName, StreamLimits, Taken};
pub use table::Table;
