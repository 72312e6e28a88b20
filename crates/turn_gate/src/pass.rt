//! The knowledge that one caller has of a gate.
ghost use Rattle.std.specs.Prelude.{◌≡◌, length, false};
ghost use Rattle.turn_gate.specs.Histories.{AreOwn};

use crate::machine::Machine;
use crate::view::{Counted, View};
use atomic_table::Seat;
use std::marker::Model;

/// The right to call a gate. The pass has seen a beginning of the gate's history.
#[derive(Drop)]
pub struct Pass<T: Machine> {
    pub(crate) seat: Seat<Option<Counted<T>>, View<T::Call, T::Reply, T::About>>,
    pub(crate) calls: u64,
}

impl<T: Machine> Model for Pass<T> {
    ghost use Rattle.std.specs.Prelude.{◌≡◌, ◌<◌, false, length, [], Some};
    ghost use Rattle.turn_gate.specs.Histories.{AreOwn};
    ghost use Rattle.turn_gate.specs.TurnTable.{about_of};
    ghost use Rattle.turn_gate.specs.Known.{PassKnown};

    ghost Value = { PassKnown T.About (T.Call × T.Reply) };

    ghost view = { λ p. record {
      gate = record { table = p.seat.table_id; about = about_of T.any p.seat.me.0.of };
      holds = p.seat.me.0.holds;
      met = p.seat.me.0.met;
      kin = p.seat.me.0.kin;
      seen = p.seat.me.0.seen;
      mine = p.seat.me.0.mine;
    } };

    ghost invariant = { λ p. (p.seat.me.1 ≡ []) × (p.seat.me.0.holds ≡ false) × (0 < length p.seat.me.0.kin) × (p.seat.me.0.of ≡ Some (about_of T.any p.seat.me.0.of))
        × (p.calls ≡ length p.seat.me.0.seen) × AreOwn p.seat.me.0.mine (length p.seat.me.0.seen)
        × T.lawful (about_of T.any p.seat.me.0.of) p.seat.me.0.seen };
}

impl<T: Machine> Pass<T> {
    /// Returns the number of calls that this pass has seen. They are a lawful history, each of its own calls
    /// has a place of its own there, and it doesn't hold the turn.
    pub fn seen(&self) -> u64
        ensures count { result ≡ length self.now.seen }
        ensures lawful { T.lawful self.now.gate.about self.now.seen }
        ensures own { AreOwn self.now.mine (length self.now.seen) }
        ensures idle { self.now.holds ≡ false }
    {
        self.calls
    }
}
