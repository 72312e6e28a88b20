//! The laws of a stream, and of a pool of slots, that stand above their definitions.
//!
//! Read `viewers_law` in `players.rt` first. Each law is the contract of a function that does nothing: a fact
//! about every history of calls, every list of items and every limit. The viewer's law and its consequences
//! are about the items that a player is sent. The other laws read the definitions as plain relations between
//! items and numbers: the window, the configuration in effect, a whole chain of frames and the join place. A
//! slot of a pool is a stream, so all of them hold there; the laws of a pool say so, and which items its
//! names keep apart. It has no code that runs.
#![tactic(auto)]

mod definitions;
mod players;
mod pools;

pub use definitions::{chain_law, configuration_law, join_law, live_law, window_law};
pub use players::{
    alone_law, chains_law, configurations_law, items_law, numbers_law, spares_law, takes_alone,
    turns_law, viewers_law,
};
pub use pools::{
    names_law, own_name_law, since_law, slots_law, tables_law, takes_alone_at_pools, three_items,
};
