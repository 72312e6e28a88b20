//! Ports: the handles of sessions, recorders and workers to the streams and pools at some places.
//!
//! Read [`StreamPort`] first. It answers calls at each place, and says which calls it has seen of that
//! place's one history. A place has a listed stream, or a pool: an open table, whose broadcasts have the
//! names that their publishers give. [`Sole`] serves one thread, and keeps a journal of each place's calls.
//! [`Shared`] puts each place behind a gate, and many threads have one each. A call never waits.
#![tactic(auto)]

mod again;
mod book;
mod callers;
mod names;
mod place;
mod place_table;
mod port;
mod shapes;
mod shared;
mod sole;
mod ways;

pub use callers::{callers_law, kindred_law};
pub use names::{Name, NameList, NotFound, OpenList, OpenName};
pub use place_table::{PlaceTable, Site, pasts_law};
pub use port::{PortFail, StreamPort};
pub use shapes::places_law;
pub use shared::{Shared, shared_ports};
pub use sole::{Sole, SolePass};
