//! The rule of the table, and the facts that its steps give.
ghost use Rattle.std.specs.Prelude.{Option, None};
ghost use Rattle.turn_gate.specs.TurnTable.{TurnRule, opener, newcomer, cutting, spent, taking, noting, Seizes, Frees, Learns};
ghost use Rattle.turn_gate.specs.InSlot.{InSlot};

use crate::machine::Machine;
use crate::view::{Counted, View};
use atomic_table::{Join, Play, Split, TableRule};
use std::marker::{Brand, PhantomData};

/// The table's rule.
pub struct Turns<T> {
    marker: PhantomData<T>,
}

impl<T: Machine> TableRule<Option<Counted<T>>, View<T::Call, T::Reply, T::About>, T::About>
    for Turns<T> {
    ghost holds = { λ key. TurnRule (InSlot T.stands T.about) key };

    ghost first = { opener };
}

/// The swap by which a pass tries to take the turn.
pub struct Seize<T> {
    marker: PhantomData<T>,
}

impl<T: Machine> Play<Option<Counted<T>>, View<T::Call, T::Reply, T::About>> for Seize<T> {
    ghost then = { λ _ m r n. Seizes (InSlot T.stands T.about) m r n };
}

/// The call with its reply that a step adds, or none, for the proof alone. A call at `Brand` picks it.
pub trait Said<C, R> {
    ghost entry: { Option (C × R) };
}

impl<C, R> Said<C, R> for Brand {
    ghost entry = { None };
}

/// No call.
pub struct Nothing;

impl<C, R> Said<C, R> for Nothing {
    ghost entry = { None };
}

/// The swap that frees the turn. The history grows by the entry of `W`.
pub struct Free<W> {
    marker: PhantomData<W>,
}

impl<H, C, R, A, W: Said<C, R>> Play<Option<H>, View<C, R, A>> for Free<W> {
    ghost then = { λ _ m r n. Frees W.entry m n };
}

/// A new pass is split off from an old one.
pub struct Newcomer;

impl<C, R, A> Split<View<C, R, A>> for Newcomer {
    ghost left = { cutting };

    ghost right = { newcomer };
}

/// A pass takes in another.
pub struct TakesIn;

impl<C, R, A> Join<View<C, R, A>> for TakesIn {
    ghost both = { taking };

    ghost spent = { spent };
}

/// A pass takes in another that has made no call, and notes the calls that it has seen.
pub struct Noted;

impl<C, R, A> Join<View<C, R, A>> for Noted {
    ghost both = { noting };

    ghost spent = { spent };
}

/// A pass learns that the calls that it noted are a beginning of those that it has seen.
pub struct Learn;

impl<H, C, R, A> Play<Option<H>, View<C, R, A>> for Learn {
    ghost then = { λ _ m r n. Learns m n };
}
