//! The server's side of the handshake with which an RTMP connection begins (Adobe RTMP 1.0, section 5.2).
//!
//! A client sends C0 (its version, one byte), C1 and C2 (1,536 bytes each). The server answers with S0, S1
//! and S2, of the same lengths. A `Hand` reads the client's bytes in pieces, cut in any way, and gives the
//! answer as soon as C1 is complete. Read `Hand::feed` first. It opens no connection and sends nothing.
#![tactic(auto)]

mod answer;
mod echo;
mod fail;
mod hand;
mod laws;
mod slices;

pub use fail::HandFail;
pub use hand::{Hand, HandFed};
pub use laws::{answer_law, cutting_law};
