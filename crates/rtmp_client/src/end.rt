use av_unit::Bytes;
use chunk_reader::ReadCause;
use thiserror::Error;

/// The reason why a client ends. A place is the number of the server's bytes before the byte that decides,
/// those of the handshake among them.
#[derive(Debug, Drop, Error)]
pub enum ClientEnd {
    /// The server has closed the link.
    #[error("the server closed the link")]
    PeerClosed,
    /// The link failed.
    #[error("the link failed")]
    LinkFault,
    /// The first byte isn't 3.
    #[error("another version of RTMP than 3, at byte {at}")]
    BadVersion { at: u64 },
    /// The reader of chunks refuses a byte.
    #[error("{cause}, at byte {at}")]
    BadChunk { cause: ReadCause, at: u64 },
    /// The body of a control message is too short.
    #[error("a control message that is too short, at byte {at}")]
    BadControl { at: u64 },
    /// The body of a command message is no command.
    #[error("a command message that is no command, at byte {at}")]
    BadCommand { at: u64 },
    /// The server answered with an error: its code and its description, each no bytes if it gave none.
    #[error("the server refused")]
    Refused { code: Bytes, description: Bytes },
    /// It was finished, and all that it owed was sent.
    #[error("all was sent")]
    Done,
    /// Memory was refused.
    #[error("out of memory")]
    OutOfMemory,
}

/// The answer of a turn.
#[derive(Clone, Copy)]
pub enum ClientTurn {
    /// A byte was received, sent or fed.
    Moved,
    /// Nothing was to be done.
    Idle,
    /// The client has ended: `end` says why.
    Ended,
}
