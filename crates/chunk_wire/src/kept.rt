use av_unit::Bytes;

/// The terms of a chunk stream's last header: time and delta in milliseconds, the message's length in bytes,
/// its type and its message stream id. `extended` tells whether extended time followed.
#[derive(Clone, Copy)]
pub struct Terms {
    pub time: u32,
    pub delta: u32,
    pub length: u32,
    pub kind: u8,
    pub stream: u32,
    pub extended: bool,
}

/// The state of a chunk stream in a reader: its id, the terms of its last header, and the bytes that came of
/// the message in progress. There are none if no message is in progress.
#[derive(Drop)]
pub struct ChunkStream {
    pub id: u32,
    pub terms: Terms,
    pub part: Bytes,
}
