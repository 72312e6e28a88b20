//! A link to a server over a socket, and a rest for the client that uses it: the way in which it waits. The film
//! of standard input, sent at its own pace, and the output for a film that comes. `relay push` and `relay pull`
//! use them.
//!
//! Read `opening.rt` first, with [`connect`], and then `link.rt`. Contracts see none of the bytes that pass
//! through. The crate parses no RTMP, and doesn't connect anew after a fault.
#![tactic(auto)]

mod clock;
mod film;
mod flow;
mod keeping;
mod link;
mod lookup;
mod opening;
mod output;
mod pace;
mod parting;
mod place;
mod rest;

pub use clock::milliseconds;
pub use film::{FilmFault, PeerFilm};
pub use flow::Flow;
pub use link::PeerLink;
pub use lookup::{Unknown, look_up};
pub use opening::{Bounds, connect};
pub use output::{PeerOutput, Watch};
pub use pace::Haste;
pub use parting::Parting;
pub use place::Place;
pub use rest::PeerRest;
