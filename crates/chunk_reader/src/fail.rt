use thiserror::Error;

/// The cause for which a reader refuses a byte. If one byte has several causes, the first in this list is the
/// answer.
#[derive(Clone, Copy, Debug, PartialEq, Eq, Error)]
pub enum ReadCause {
    /// A format 2 or 3 chunk on a fresh id, at the last byte of its basic header.
    #[error("chunk stream {id} begins without a full header")]
    NoHead { id: u32 },
    /// A 65th id, at the last byte of its basic header.
    #[error("too many chunk streams")]
    TooManyIds,
    /// A length above the longest message, at the last byte of the chunk's header.
    #[error("a message of {length} bytes is too long")]
    TooLong { length: u32 },
    /// A payload byte by which the messages in progress would have more than 65,536 bytes above the longest
    /// message.
    #[error("the messages in progress are too long together")]
    TooMuch,
    /// A Set Chunk Size of at least 4 bytes whose number is 0 or has the first bit set, at its last byte.
    #[error("no chunk has a size of {value}")]
    BadChunkSize { value: u32 },
    /// Memory was refused.
    #[error("out of memory")]
    OutOfMemory,
    /// The byte after 2^62 others.
    #[error("more bytes than can be counted")]
    TooFar,
}

/// A refusal: the cause, and the number of bytes that the reader was fed before the byte that decided it.
#[derive(Clone, Copy, Debug, Error)]
#[error("{cause}, at byte {at}")]
pub struct ReadFail {
    pub cause: ReadCause,
    pub at: u64,
}
