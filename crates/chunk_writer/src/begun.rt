use chunk_wire::Terms;

/// The first time or delta that is written as extended time (5.3.1.3).
pub(crate) const EXTENDED: u32 = 0xFF_FFFF;

/// The beginning of a message: its chunk stream, the format of its first chunk, and the terms of its header.
/// In format 0, `terms.delta` is the time of the message (5.3.1.2).
#[derive(Clone, Copy)]
pub struct Begun {
    pub id: u32,
    pub format: u8,
    pub terms: Terms,
}
