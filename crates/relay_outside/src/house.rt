ghost use Rattle.std.specs.Prelude.{◌≡◌, ℕ, List, Option, Some, IfSome, IfNone, OnOk, OnErr};
ghost use Rattle.relay_outside.specs.Doors.{IsNewDoor, IsDone, with_one};
ghost use Rattle.relay_outside.specs.Houses.{Asked, HouseTold, IsNewFile, asked_door, Refuses, Keeps, kept_file, with_shut, shut_door};

use crate::{Door, Sink};
use std::alloc::AllocError;

/// Lets a worker wait until there is something to do.
pub trait Rest: Drop {
    /// Called after a round in which nothing moved. It may wait.
    fn pause(&mut self);

    /// Called after a turn that moved something. It never waits.
    fn moved(&mut self);

    /// Called after a unit may have been pushed to this stream, or its publisher may have left. It never waits.
    ///
    /// `stream` is a number of the stream, for hints alone. Two streams may share one, which costs time and
    /// nothing else.
    fn pushed(&mut self, stream: u32);

    /// Called when a link or a recorder of this worker begins to play this stream. It never waits.
    fn plays(&mut self, stream: u32);

    /// Returns the number of times that `pushed` was called for this stream by any worker, as far as this
    /// worker knows. A hint that comes late, or never, costs time and nothing else.
    fn pushes(&self, stream: u32) -> u64;
}

/// Gives workers their doors and rests, gives recorders their files, and takes doors and files back.
pub trait House: Drop {
    type Door: Door + Send;

    type Rest: Rest + Send;

    type File: Sink + Send;

    /// The number of its faults and the number of kept files that had faults. If it tells them: the files
    /// that were kept and the doors that were shut. Its counts never fall; a count that stands at the last
    /// value of a u64 stays there, and is said to rise.
    ghost told: { Self → HouseTold };

    /// If it tells them: the doors that it gave, in order, each as it was asked for.
    ghost asked: { Self → Option (List Asked) };

    /// If it tells them: the names of the files that it gave, in order.
    ghost named: { Self → Option (List (List ℕ)) };

    /// Gives the door of a worker, which is new. It is to listen at this address and to close after `accept`
    /// links; 0 means any number. `None` comes only if the house's faults rose.
    fn door(&mut self, worker: u32, listen: &[u8], accept: u32) -> Option<Self::Door>
        ensures new { IfSome result (λ d. IsNewDoor (Self.Door.told d) × (told self.new ≡ told self.old)) }
        ensures none { IfNone result (Refuses (told self.old) (told self.new)) }
        ensures asked { IfSome result (λ _. asked self.new ≡ with_one (asked self.old) (asked_door worker listen.now accept)) }
        ensures unasked { IfNone result (asked self.new ≡ asked self.old) }
        ensures named { named self.new ≡ named self.old };

    /// Gives the rest of a worker. `None` comes only if the house's faults rose.
    fn rest(&mut self, worker: u32) -> Option<Self::Rest>
        ensures new { IfSome result (λ _. told self.new ≡ told self.old) }
        ensures none { IfNone result (Refuses (told self.old) (told self.new)) }
        ensures asked { asked self.new ≡ asked self.old }
        ensures named { named self.new ≡ named self.old };

    /// Gives a new file of this name. `None` comes only if the house's faults rose.
    fn file(&mut self, name: &[u8]) -> Option<Self::File>
        ensures new { IfSome result (λ f. IsNewFile (Self.File.holds f) (Self.File.faults f) × (told self.new ≡ told self.old)) }
        ensures none { IfNone result (Refuses (told self.old) (told self.new)) }
        ensures asked { asked self.new ≡ asked self.old }
        ensures named { IfSome result (λ _. named self.new ≡ with_one (named self.old) (Some name.now)) }
        ensures unnamed { IfNone result (named self.new ≡ named self.old) };

    /// Keeps a file under a name. It counts as spoiled exactly if the file has faults. If memory is refused,
    /// the file is dropped and nothing changes.
    fn keep(&mut self, name: &[u8], file: Self::File) -> Result<(), AllocError>
        ensures kept { OnOk result (Keeps (told self.old) (told self.new) (Self.File.faults file)
            (kept_file name.now (Self.File.holds file) (Self.File.faults file))) }
        ensures refused { OnErr result (told self.new ≡ told self.old) }
        ensures asked { asked self.new ≡ asked self.old }
        ensures named { named self.new ≡ named self.old };

    /// Takes back the door of a worker, which is closed or has given 2^40 links. If memory is refused, the
    /// door is dropped and nothing changes.
    fn shut(&mut self, worker: u32, door: Self::Door) -> Result<(), AllocError>
        requires { IsDone (Self.Door.told door) }
        ensures shut { OnOk result (told self.new ≡ with_shut (told self.old) (shut_door worker (Self.Door.told door))) }
        ensures refused { OnErr result (told self.new ≡ told self.old) }
        ensures asked { asked self.new ≡ asked self.old }
        ensures named { named self.new ≡ named self.old };
}
