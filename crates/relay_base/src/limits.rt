/// The limits of a relay.
///
/// `max_message` is the longest message that a reader takes, in bytes. `ring_bytes` and `ring_items` bound
/// the window of a stream, and `players` bounds its players at a time. `window` is the number of bytes after
/// which a peer is sent an acknowledgement.
#[derive(Clone, Copy)]
pub struct Limits {
    pub max_message: u32,
    pub ring_bytes: u64,
    pub ring_items: u32,
    pub players: u32,
    pub window: u32,
}

/// The end of a program: its exit status, and the place in its input that decided this, or 0.
#[derive(Clone, Copy)]
pub struct Status {
    pub code: u8,
    pub place: u64,
}
