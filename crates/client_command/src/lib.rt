//! The commands at the other end of a connection: [`push`] publishes a film of FLV at an RTMP server, and
//! [`pull`] plays a stream of one and writes it as FLV.
//!
//! Each takes turns of a client over a link until it ends, and may wait. How it ended is told by the exit
//! code of its status:
//!
//! | Code | Comes |
//! |---|---|
//! | 0 | the film was read to its end and all of it was sent; or the stream was played up to its end |
//! | 2 | exactly if the words are others; nothing is read or sent |
//! | 3 | `push`: only if the source's faults rose |
//! | 4 | `push`: the film is refused at the byte `place` |
//! | 5 | `pull`: only if the sink's faults rose |
//! | 6 | for want of memory |
//! | 10 | only if the link's ends rose: the server closed the connection |
//! | 11 | only if the link's faults rose |
//! | 12 | the server's bytes are no RTMP at the byte `place` |
//! | 13 | the server refused the request |
//!
//! `place` is 0 but for codes 4 and 12.
//!
//! Read [`push`] first. The crate opens no connection: each command is handed a link.
#![tactic(auto)]

mod ahead;
mod ending;
mod film;
mod gifts;
mod pulling;
mod pushing;
mod put;
mod starting;
mod stop;
mod turning;
mod words;

pub use ahead::Ahead;
pub use ending::{Ended, Refusal};
pub use film::{Film, bytes_read, new_film, next};
pub use gifts::{is_last, write_gift};
pub use pulling::pull;
pub use pushing::{give_tag, push};
pub use starting::start;
pub use stop::Stop;
pub use turning::taken;
pub use words::{Target, target_of};
