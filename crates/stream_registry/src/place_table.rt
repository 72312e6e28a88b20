//! The machine behind a gate: a stream or a pool.
ghost use Rattle.std.specs.Prelude.{◌≡◌, ◌≤◌, List, [], ◌∷◌, ◌++◌, length, Result};
ghost use Rattle.av_unit.specs.declared.bytes.OutOfMemory.{OutOfMemory};
ghost use Rattle.stream_model.specs.declared.calls.Entry.{Entry};
ghost use Rattle.stream_model.specs.declared.replies.Reply.{Reply};
ghost use Rattle.turn_gate.specs.Histories.{Begins};
ghost use Rattle.stream_registry.specs.Pasts.{Attempt, past_after, past_of, GoesOn, Stands, IsLawfulAt};
ghost use Rattle.stream_core.specs.Table.{known};
ghost use Rattle.stream_registry.specs.Names.{no_shape};
ghost use Rattle.stream_registry.specs.Sites.{site};

use av_unit::OutOfMemory;
use stream_core::{Entry, Reply, Shape, Table};
use turn_gate::Machine;

/// The constants of a place.
#[derive(Clone, Copy)]
pub struct Site {
    /// The number of the place, which tells the gates of a port apart.
    pub place: u32,
    /// The machine of the place, and its limits.
    pub limits: Shape,
}

/// The stream or the pool at a place, as the machine of a gate.
#[derive(Drop)]
pub struct PlaceTable {
    pub place: u32,
    pub table: Table,
}

impl Machine for PlaceTable {
    type Call = Entry;

    type Reply = Result<Reply, OutOfMemory>;

    type About = Site;

    ghost about = { λ d. site d.place (known d.table).shape };

    ghost any = { site 0 no_shape };

    ghost stands = { λ d h. Stands (known d.table) h };

    ghost lawful = { λ s. IsLawfulAt s.limits };

    fn apply(&mut self, call: Entry) -> Result<Reply, OutOfMemory> {
        self.table.apply(call)
    }

    ghost legal = { λ d h s. s.1 };
}

/// The past of a gate's history has at most as many calls as the history. A further call at the end of the
/// history is the newest of the past, unless memory refused it. If a history begins another, the other's past
/// continues its past.
pub fn pasts_law()
    ensures length { (h : List Attempt) → length (past_of h) ≤ length h }
    ensures last { (h : List Attempt) (e : Entry) (r : Result Reply OutOfMemory) → past_of (h ++ (e, r) ∷ []) ≡ past_after (past_of h) e r }
    ensures begins { (h k : List Attempt) → Begins h k → GoesOn (past_of h) (past_of k) }
{}
