use thiserror::Error;

/// The reason why a player ends.
#[derive(Clone, Copy, Debug, Error)]
pub enum HttpEnd {
    /// The peer has closed the link.
    #[error("the peer closed the link")]
    PeerClosed,
    /// The link failed.
    #[error("the link failed")]
    LinkFault,
    /// It was refused, by a text of this status code that was sent whole.
    #[error("it was told {code}")]
    Answered { code: u16 },
    /// The stream has had the largest number of calls that it can count.
    #[error("the stream has had as many calls as can be counted")]
    Worn,
    /// Memory was refused.
    #[error("out of memory")]
    OutOfMemory,
    /// It was closed before it had ended.
    #[error("it was closed")]
    Closed,
}
