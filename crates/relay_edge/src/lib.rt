//! The OS layer of the relay ("the real edge"): doors, links and rests over sockets, and files. A rest is the
//! way in which a worker waits. Contracts see none of the bytes that pass through.
//!
//! A [`RealHouse`] gives each worker a door and a rest; read `house.rt` first, then `door.rt`, `link.rt` and
//! `rest.rt`. The doors at one address share one listening socket, and balance their links. A link calls the
//! system only if the worker's poll has reported that there is something to do. A rest waits until a socket
//! of its worker is ready, or until another worker has handled received bytes.
//!
//! The events of links go to a log, and a link that is silent for too long fails. A control socket answers
//! with the state of the server and takes the command to stop ([`Watching`]); [`Asking`] is its client. The
//! crate also gives a link to an origin, and a rest for the session that pulls from it. It parses no RTMP and
//! keeps no stream.
#![tactic(auto)]

mod aside;
mod asking;
mod audience;
mod board;
mod bounds;
mod cause;
mod cell;
mod cells;
mod client;
mod clock;
mod control;
mod date;
mod descriptors;
mod door;
mod file;
mod forwarded;
mod giving_way;
mod hidden;
mod hints;
mod house;
mod inbox;
mod journal;
mod json;
mod life;
mod link;
mod link_line;
mod listeners;
mod missed;
mod names;
mod options;
mod origin;
mod origin_line;
mod outbox;
mod post;
mod proxies;
mod quoted;
mod recordings;
mod rest;
mod seats;
mod segments;
mod shown;
mod stats;
mod throttle;
mod turnstile;
mod watch;
mod wire;
mod words;

pub use asking::Asking;
pub use bounds::Bounds;
pub use descriptors::most_descriptors;
pub use door::RealDoor;
pub use file::RealFile;
pub use house::RealHouse;
pub use journal::is_heard;
pub use link::RealLink;
pub use origin::OriginLink;
pub use proxies::{Proxies, Unlisted};
pub use rest::RealRest;
pub use segments::SegmentHouse;
pub use shown::Shown;
pub use watch::Watching;
