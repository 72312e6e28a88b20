//! The news that a link receives about its connection, for observers of a running relay.

/// Why a publish or a play was refused.
#[derive(Clone, Copy, Debug, PartialEq, Eq)]
pub enum Denied {
    /// No stream and no open application has that name.
    NoName,
    /// Its key is wrong, or it has none.
    WrongKey,
    /// There is a publisher under that name already.
    InUse,
    /// No place is left.
    Full,
}

/// Why a connection ended.
#[derive(Clone, Copy, Debug, PartialEq, Eq)]
pub enum Ending {
    /// The peer closed the link.
    PeerClosed,
    /// The link failed.
    LinkFault,
    /// The first byte is that of another version of the protocol.
    BadVersion,
    /// A byte of a chunk is refused.
    BadChunk,
    /// The body of a control message is too short.
    BadControl,
    /// The body of a command message is no command.
    BadCommand,
    /// More message streams were asked for than one connection may have.
    TooManyStreams,
    /// The relay was told to end it.
    Quit,
    /// The stream has had as many calls as can be counted.
    Worn,
    /// Out of memory.
    OutOfMemory,
    /// A request was answered with an HTTP status, and nothing else.
    Answered(u16),
}

/// A piece of news.
#[derive(Clone, Copy, Debug, PartialEq, Eq)]
pub enum News {
    /// The peer has connected to the application.
    Connected,
    /// It publishes.
    Publishes,
    /// It plays.
    Plays,
    /// It publishes or plays no longer, and is still there.
    Left,
    /// The messages for it wait until it acknowledges more of those that it was sent before.
    HeldBack,
    /// It has acknowledged enough, and is sent more.
    Resumed,
    /// It plays, and that number of items was jumped over, because the ring had dropped them.
    Skipped(u64),
    /// It plays, and that number of items was left out of what it was sent: it lags, their reference is missing, or it has
    /// switched their kind off.
    LeftOut(u64),
    /// It was refused.
    Denied(Denied),
    /// It ended. `at` is the offset, in the bytes that the peer sent, of the byte at fault, if there is such
    /// a byte.
    Ended { ending: Ending, at: Option<u64> },
}
