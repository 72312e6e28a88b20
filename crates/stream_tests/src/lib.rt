//! Tests of one stream and of the ports to it, with threads, and the law that a pass belongs to one place.
//!
//! Read `shared.rt` first. Apart from that law it has no code but tests, and opens no socket.
#![tactic(auto)]

ghost use Rattle.std.specs.Prelude.{◌≡◌, ℕ, List, slice_get, Some};
ghost use Rattle.turn_gate.specs.Known.{GateId};
ghost use Rattle.stream_registry.specs.declared.place_table.Site.{Site};
ghost use Rattle.stream_registry.specs.Sites.{AreApart};

#[cfg(test)]
mod cursor;
#[cfg(test)]
mod gate;
#[cfg(test)]
mod shared;

/// A pass belongs to one place. If no two places have the same gate, as `shared_ports` makes them, a gate
/// stands at one place alone.
pub fn one_place_law()
    ensures { (ids : List (GateId Site)) → AreApart ids → (p q : ℕ) (g : GateId Site) → slice_get ids p ≡ Some g → slice_get ids q ≡ Some g
        → p ≡ q }
{}
