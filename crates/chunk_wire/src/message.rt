use av_unit::Bytes;

/// An RTMP message: its type, its message stream id, its time in milliseconds and its body.
#[derive(Drop)]
pub struct Message {
    pub kind: u8,
    pub stream: u32,
    pub time: u32,
    pub body: Bytes,
}
