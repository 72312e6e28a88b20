/// A basic header: the format of the chunk's message header, 0 to 3, and the id of its chunk stream (5.3.1.1).
#[derive(Clone, Copy, PartialEq, Eq)]
pub struct Basic {
    pub format: u8,
    pub id: u32,
}

/// A message header (5.3.1.2). Each format gives its fields and leaves the others 0.
///
/// `field` is the time of a format 0 header in milliseconds, or the delta of a format 1 or 2 header. If it is
/// 0xFFFFFF, four bytes of extended time follow, which this header doesn't hold. `length` is the number of
/// bytes of the message's body, `kind` the message type and `stream` the message stream id.
#[derive(Clone, Copy, PartialEq, Eq)]
pub struct Head {
    pub format: u8,
    pub id: u32,
    pub field: u32,
    pub length: u32,
    pub kind: u8,
    pub stream: u32,
}
