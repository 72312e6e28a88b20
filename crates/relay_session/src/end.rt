use chunk_reader::ReadCause;
use std::error::Error;
use std::fmt;

/// The reason why a session ends. A place is the number of the peer's bytes before the byte that decides,
/// those of the handshake among them.
#[derive(Clone, Copy, Debug, PartialEq, Eq)]
pub enum End {
    /// The peer has closed the link.
    PeerClosed,
    /// The link failed.
    LinkFault,
    /// The first byte isn't 3.
    BadVersion { at: u64 },
    /// The reader of chunks refuses a byte.
    BadChunk { cause: ReadCause, at: u64 },
    /// The body of a control message is too short.
    BadControl { at: u64 },
    /// The body of a command message is no command.
    BadCommand { at: u64 },
    /// A 17th message stream is asked for.
    TooManyStreams { at: u64 },
    /// It was told to end.
    Quit,
    /// The stream has had the largest number of calls that it can count.
    Worn,
    /// Memory was refused.
    OutOfMemory,
}

impl fmt::Display for End {
    fn fmt<W: fmt::Write>(&self, f: &mut fmt::Formatter<W>) -> fmt::Result {
        match *self {
            End::PeerClosed => f.write_str("the peer closed the link"),
            End::LinkFault => f.write_str("the link failed"),
            End::BadVersion { at } => write!(f, "another version of RTMP than 3, at byte {at}"),
            End::BadChunk { cause, at } => write!(f, "{cause}, at byte {at}"),
            End::BadControl { at } => write!(
                f,
                "a control message that is too short, at byte {at}"
            ),
            End::BadCommand { at } => write!(
                f,
                "a command message that is no command, at byte {at}"
            ),
            End::TooManyStreams { at } => write!(f, "too many message streams, at byte {at}"),
            End::Quit => f.write_str("it was told to end"),
            End::Worn => f.write_str("the stream has had as many calls as can be counted"),
            End::OutOfMemory => f.write_str("out of memory"),
        }
    }
}

impl Error for End {}
