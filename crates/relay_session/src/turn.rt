use crate::End;

/// The answer of a turn.
#[derive(Clone, Copy, PartialEq, Eq)]
pub enum Turn {
    /// A byte was received, sent or fed, or a call other than a Take that was answered NotYet was made.
    Moved,
    /// Nothing was to be done.
    Idle,
    /// The session has ended.
    Ended(End),
}
