use av_unit::Bytes;
use flv_tags::Tag;

/// The client's goal: to publish a stream, or to play it.
#[derive(Clone, Copy, Drop)]
pub enum Wish {
    Push,
    Pull,
}

/// The stream that is to be published or played, and the address of its server as it was dialled. A name may
/// carry a key after `?`.
#[derive(Drop)]
pub struct Asked {
    pub wish: Wish,
    pub address: Bytes,
    pub app: Bytes,
    pub name: Bytes,
}

/// The phase of a client's dialogue.
#[derive(Clone, Copy, Drop)]
pub enum Phase {
    /// `connect` was sent.
    Connecting,
    /// The server is connected, and `createStream` was sent.
    Creating,
    /// `publish` or `play` was sent on this message stream.
    Asking(u32),
    /// The server has said that this has started.
    Started(u32),
}

/// The news that a command of a server brings to a client.
#[derive(Debug, PartialEq, Eq, Drop)]
pub enum News {
    /// The result of the command with this transaction, and the fourth value if it is a number; both are the
    /// patterns of numbers.
    Done {
        transaction: u64,
        number: Option<u64>,
    },
    /// The client is refused, with a code and a description in words. Each is as the server gave it, or no
    /// bytes. Both come of one message, so that together they are shorter than it.
    Refused {
        code: Bytes,
        description: Bytes,
    },
    /// A status with its code, which is no error.
    Status(Bytes),
    /// Nothing that matters here.
    Other,
}

/// The inputs of a client that publishes: a tag to send, or that no more will come.
#[derive(Drop)]
pub enum Given {
    Send(Tag),
    Finish,
}

/// One such input, with the count of all bytes that the client was fed by then.
#[derive(Drop)]
pub struct Gave {
    pub at: u64,
    pub given: Given,
}

/// The gifts of a client that plays: that the stream is published, or is no longer, or a tag of it.
#[derive(Drop)]
pub enum Gift {
    Published,
    Unpublished,
    Tag(Tag),
}
