/// The outcome of a round of a worker.
#[derive(Clone, Copy)]
pub struct Round {
    /// A link came, a turn answered Moved, or a session was closed.
    pub moved: bool,
    /// The sessions that are kept.
    pub live: u32,
    /// The door is closed, or has given 2^40 links.
    pub closed: bool,
    /// A link was dropped for want of memory.
    pub refused: bool,
}
