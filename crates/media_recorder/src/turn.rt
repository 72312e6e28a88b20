/// The result of a recorder's turn.
#[derive(Clone, Copy)]
pub enum RecTurn {
    /// The sink took bytes, or a call was made.
    Moved,
    /// The stream has nothing for the recorder yet.
    Idle,
    /// The port was busy.
    Busy,
    /// The recorder has ended, and does nothing more.
    Ended(RecEnd),
}

/// Why a recorder has ended.
#[derive(Clone, Copy)]
pub enum RecEnd {
    /// A put failed.
    SinkFault,
    /// All places for players were taken.
    Full,
    /// The stream's history is full.
    Worn,
    /// There was no memory.
    OutOfMemory,
}

/// The result of a recorder's leave.
#[derive(Drop)]
pub enum Leaving<R: Drop> {
    /// It has left.
    Done,
    /// The port was busy. The recorder comes back.
    Busy(R),
    /// There was no memory for the call. The recorder comes back.
    OutOfMemory(R),
}
