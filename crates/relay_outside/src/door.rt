ghost use Rattle.std.specs.Prelude.{◌≡◌, ◌<◌, ◌^◌, OnOk, OnErr};
ghost use Rattle.relay_outside.specs.Doors.{DoorTold, Knocks, returned, with_back};

use crate::Link;
use std::alloc::AllocError;

/// The answer of a door to a call for a link.
#[derive(Drop)]
pub enum Knock<L: Drop> {
    /// A new link. The number of links that the door has given rose by one.
    Link(L),
    /// No peer has come yet.
    NotYet,
    /// No link comes any more. The door is closed from then on.
    Closed,
    /// There is no link, and its faults rose.
    Failed,
}

/// A source of links, to which they are handed back too. If no peer has come yet, it says so and doesn't
/// wait.
pub trait Door: Drop {
    type Link: Link + Send;

    /// The number of links that it has given, the number of its faults, whether it is closed and, if it tells
    /// them, the links that were handed back. The count of faults never falls; if it stands at the last value
    /// of a u64, it stays there, and is said to rise.
    ghost told: { Self → DoorTold };

    /// Gives the next link, which is new. A closed door gives none.
    fn next(&mut self) -> Knock<Self::Link>
        requires { (told self.old).given < 2 ^ 40 }
        ensures knock { Knocks Self.Link.told Self.Link.counts (told self.old) (told self.new) result };

    /// Takes a link back. If memory is refused, the link is dropped and nothing changes.
    fn back(&mut self, link: Self::Link) -> Result<(), AllocError>
        ensures back { OnOk result (told self.new ≡ with_back (told self.old) (returned (Self.Link.told link) (Self.Link.counts link))) }
        ensures refused { OnErr result (told self.new ≡ told self.old) };
}
