//! The limits of a server's links.

/// How long links may be silent or wait, how many one address may have, and how large their send buffers are.
#[derive(Clone, Copy)]
pub struct Bounds {
    /// The seconds after which a publisher that gives nothing ends; 0 sets no limit.
    pub publisher_silence: u64,
    /// The seconds that a player may wait for a broadcast; 0 sets no limit.
    pub wait: u64,
    /// The most links of one address at a time; 0 sets no limit.
    pub address_links: u64,
    /// The size in bytes of the send buffer that the system is asked for; 0 leaves it to the system.
    pub send_buffer: u32,
    /// The milliseconds that bytes for a player may wait for more bytes, so that one call of the system sends them
    /// all; 0 sends them at once.
    pub gather: u64,
}

impl Bounds {
    /// Returns bounds that limit nothing.
    pub fn none() -> Bounds {
        Bounds {
            publisher_silence: 0,
            wait: 0,
            address_links: 0,
            send_buffer: 0,
            gather: 0,
        }
    }
}
