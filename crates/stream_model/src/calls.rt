use crate::names::ShortName;
use av_unit::{UnitArc, Want};

/// The limits of a stream: those of its window, and its number of players.
#[derive(Clone, Copy)]
pub struct StreamLimits {
    /// The sum of the costs of the items in the window, in bytes.
    pub bytes: u64,
    /// The number of items in the window.
    pub items: u32,
    /// The places for players, recorders among them.
    pub players: u32,
}

/// The constants of a place: the limits of its stream, or those of each slot if it has a pool.
#[derive(Clone, Copy)]
pub struct Shape {
    pub limits: StreamLimits,
    /// The number of slots of the pool; `None` if the place has a stream.
    pub slots: Option<u32>,
}

/// A call at a stream or a pool.
#[derive(Debug, Drop)]
pub enum Call {
    /// Begins a broadcast.
    Begin,
    /// Publishes a unit.
    Push(UnitArc),
    /// Ends the broadcast.
    End,
    /// Asks for a place for a player.
    Join,
    /// Asks for the player's next item.
    Take { player: u32, want: Want },
    /// Gives the player's place back.
    Leave { player: u32 },
    /// Asks for the counts of the stream's answers so far.
    Count,
    /// Begins a broadcast of that name. A stream answers it as `Begin`.
    BeginAs(ShortName),
    /// Asks for a place for a player of the broadcast of that name. A stream answers it as `Join`.
    JoinAs(ShortName),
}

/// A call with its caller.
#[derive(Debug, Drop)]
pub struct Entry {
    /// The name of the caller.
    pub who: u64,
    /// The number of bytes of input that the caller had been fed.
    pub at: u64,
    /// The call itself.
    pub call: Call,
}
