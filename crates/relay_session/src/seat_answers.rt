use stream_model::{Entry, Reply};

/// The role that a session was granted at its stream.
#[derive(Clone, Copy, PartialEq, Eq)]
pub enum Active {
    /// Nothing.
    Nothing,
    /// It publishes.
    Publishes,
    /// It plays, with the place of this player.
    Plays { player: u32 },
}

/// The result of a call at a stream. If it wasn't made, the entry comes back.
#[derive(Drop)]
pub enum Made {
    /// It got this answer.
    Answer(Reply),
    /// The port was busy.
    Busy(Entry),
    /// The stream has had the largest number of calls that it can count.
    Worn(Entry),
    /// There was no memory for it.
    OutOfMemory(Entry),
}

/// How a session left a stream.
#[derive(Clone, Copy)]
pub enum Leaving {
    /// Its last calls were made, and it has left.
    Done,
    /// The stream has had the largest number of calls that it can count. No further call is made, and it has
    /// left.
    Worn,
    /// The port was busy. It is still there.
    Busy,
    /// There was no memory for a call. It is still there.
    OutOfMemory,
}
