use av_unit::Bytes;

/// A tag: its type (8 audio, 9 video, 18 script data), its time in milliseconds, and its body (E.4.1).
#[derive(Drop)]
pub struct Tag {
    pub kind: u8,
    pub time: u32,
    pub body: Bytes,
}
