use thiserror::Error;

/// The reason why an edge ends.
#[derive(Clone, Copy, Debug, PartialEq, Eq, Error)]
pub enum EdgeEnd {
    /// Its client has ended: `Edge::client_end` says why.
    #[error("the client to the origin has ended")]
    Client,
    /// Somebody else publishes at its place.
    #[error("session {by} publishes at its place")]
    InUse { by: u64 },
    /// The stream has had the largest number of calls that it can count.
    #[error("the stream has had as many calls as can be counted")]
    Worn,
    /// Memory was refused, to the edge or to its client.
    #[error("out of memory")]
    OutOfMemory,
    /// Its place is an open table that has no room for another broadcast.
    #[error("its place has no room for a broadcast more")]
    NoSlot,
    /// It was closed before it had ended.
    #[error("it was closed")]
    Closed,
}
