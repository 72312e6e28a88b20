use crate::EdgeEnd;

/// The answer of a turn.
#[derive(Clone, Copy)]
pub enum EdgeTurn {
    /// A call was made, or the client received, sent or was fed a byte.
    Moved,
    /// Nothing was to be done.
    Idle,
    /// The edge has ended.
    Ended(EdgeEnd),
}
