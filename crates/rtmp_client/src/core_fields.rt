use crate::Outgoing;
use ack_window::Inbound;
use av_unit::Bytes;
use chunk_reader::Reader;
use client_owed::{Asked, Gave, Gift, Phase};
use past::Flow;

/// The state that a client keeps of its server's bytes, of the bytes that it owes, and of its gifts. `first`
/// are the bytes of the handshake, until that is over.
///
/// These fields take no bytes: `y`, the bytes fed, `gave`, the tags and the finish that it was given,
/// `taken`, the gifts taken, and `sent`, the bytes sent.
#[derive(Drop)]
pub struct Core {
    pub asked: Asked,
    pub first: Bytes,
    pub reader: Reader,
    pub inbound: Inbound,
    pub phase: Phase,
    pub finished: bool,
    pub outgoing: Outgoing,
    pub gift: Option<Gift>,
    pub fed: u64,
    pub y: Flow<u8>,
    pub gave: Flow<Gave>,
    pub taken: Flow<Gift>,
    pub sent: Flow<u8>,
}
