//! An edge: it publishes here the stream that a client pulls from another relay, its origin.
//!
//! An edge stands between a client and one place of this relay. The news of its origin begin and end
//! broadcasts there, and each unit that comes is pushed.
//!
//! Read `Edge::turn` first. `origin_calls` defines the calls that it makes, with their laws; the rules of a
//! turn are `specs/Turns.antt`. It plays nothing, and it connects nothing: it is handed a client, a port and
//! a link.
#![tactic(auto)]

mod body;
mod calls;
mod core_fields;
mod due;
mod edge;
mod end;
mod granted;
mod held;
mod pulling;
mod steps;
mod turn;
mod words;

pub use core_fields::Core;
pub use due::Due;
pub use edge::Edge;
pub use end::EdgeEnd;
pub use granted::granted_law;
pub use turn::EdgeTurn;
pub use words::end_text;
