use crate::{Outbox, Stage};
use av_unit::Bytes;
use past::{Flow, Pair};
use stream_model::{Entry, Reply};

/// The state that a player keeps of its peer's bytes and of the bytes that it owes. `longest` is the number
/// of bytes of the longest unit that it sends, `head` the bytes of a head that isn't whole, `fed` the number
/// of bytes that it has read.
///
/// These fields take no bytes: `x`, the bytes read, `later`, those that came after the head and were dropped,
/// `calls`, its own calls with their replies, and `sent`, the bytes sent.
#[derive(Drop)]
pub struct Core {
    pub who: u64,
    pub longest: u32,
    pub stage: Stage,
    pub head: Bytes,
    pub fed: u64,
    pub out: Outbox,
    pub kept: Option<Entry>,
    pub x: Flow<u8>,
    pub later: Flow<u8>,
    pub calls: Flow<Pair<Entry, Reply>>,
    pub sent: Flow<u8>,
}
