use crate::HttpEnd;

/// The answer of a turn.
#[derive(Clone, Copy)]
pub enum HttpTurn {
    /// A byte was received or sent, or a call other than a Take that was answered NotYet was made.
    Moved,
    /// Nothing was to be done.
    Idle,
    /// The player has ended.
    Ended(HttpEnd),
}
