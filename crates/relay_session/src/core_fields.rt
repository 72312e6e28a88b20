use crate::Outgoing;
use ack_window::{Inbound, Outbound};
use chunk_reader::Reader;
use command_dialog::Dialog;
use past::{Flow, Pair};
use rtmp_handshake::Hand;
use stream_model::{Entry, Reply};

/// The state that a session keeps of its peer's bytes and of the bytes that it owes. `longest` is the number
/// of bytes of its longest message, and so of its longest unit. `place` is the place of its calls, `greeting`
/// the number of bytes of the handshake's answer that aren't sent yet.
///
/// These fields take no bytes: `x`, the bytes fed, `calls`, its own calls with their replies, and `sent`, the
/// bytes sent.
#[derive(Drop)]
pub struct Core {
    pub who: u64,
    pub window: u32,
    pub longest: u32,
    pub hand: Hand,
    pub reader: Reader,
    pub inbound: Inbound,
    pub outbound: Outbound,
    pub greeting: u64,
    pub dialog: Dialog,
    pub outgoing: Outgoing,
    pub kept: Option<Entry>,
    pub place: Option<u32>,
    pub fed: u64,
    pub x: Flow<u8>,
    pub calls: Flow<Pair<Entry, Reply>>,
    pub sent: Flow<u8>,
}
