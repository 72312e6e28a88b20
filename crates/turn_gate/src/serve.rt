//! A call once its pass holds the turn.
ghost use Rattle.std.specs.Prelude.{◌≡◌, [], ◌∷◌, ◌++◌, Some};
ghost use Rattle.turn_gate.specs.Histories.{grown};
ghost use Rattle.turn_gate.specs.InSlot.{InSlot};
ghost use Rattle.turn_gate.specs.Serving.{ServingAt, Gave, Served};

use crate::gate::CallFail;
use crate::machine::Machine;
use crate::rule::{Free, Nothing, Said, Turns};
use crate::view::{Counted, View};
use atomic_table::{Seat, Shared};
use std::marker::Brand;
use std::snapshot::Snapshot;

pub(crate) type TurnTable<T, C, R, A> = Shared<Option<Counted<T>>, View<C, R, A>, A, Turns<T>>;

pub(crate) type TurnSeat<T, C, R, A> = Seat<Option<Counted<T>>, View<C, R, A>>;

/// The number of calls in a full history.
const FULL: u64 = 1 << 62;

// Lets the machine answer, and frees the turn. `seen` becomes the number of calls in the history.
pub(crate) fn serve<T: Machine + Drop>(
    turns: &TurnTable<T, T::Call, T::Reply, T::About>,
    seat: &mut TurnSeat<T, T::Call, T::Reply, T::About>,
    seen: &mut u64,
    call: T::Call,
) -> Result<T::Reply, CallFail<T::Call>>
    requires table { (turns.now.table_id.words ≡ 1) × (seat.old.table_id ≡ turns.now.table_id) }
    requires turn { ServingAt (InSlot T.stands T.about) turns.now.key seat.old.me.0.whole seat.old.me }
    ensures table { seat.new.table_id ≡ seat.old.table_id }
    ensures served { Served (T.lawful turns.now.key) seat.old.me call result seen.new seat.new.me }
{
    let kept = seat.slot_mut(turns, 0).as_mut().unwrap();
    *seen = kept.calls;
    if kept.calls == FULL {
        free::<T, Nothing>(turns, seat);
        return Err(CallFail::Worn(call));
    }
    let asked = Snapshot::of(&call);
    let reply = kept.machine.apply(call);
    kept.calls += 1;
    *seen += 1;
    free_after::<T, Brand>(turns, seat, &asked, &reply);
    Ok(reply)
}

// Frees the turn: one swap.
fn free<T: Machine + Drop, W: Said<T::Call, T::Reply>>(
    turns: &TurnTable<T, T::Call, T::Reply, T::About>,
    seat: &mut TurnSeat<T, T::Call, T::Reply, T::About>,
)
    requires table { (turns.now.table_id.words ≡ 1) × (seat.old.table_id ≡ turns.now.table_id) }
    requires turn { ServingAt (InSlot T.stands T.about) turns.now.key (grown seat.old.me.0.whole W.entry) seat.old.me }
    ensures table { seat.new.table_id ≡ seat.old.table_id }
    ensures gave { Gave W.entry seat.old.me seat.new.me }
{
    turns.swap::<Free<W>>(seat, 0, 0);
}

// Frees the turn. The history grows by a call and its reply.
fn free_after<T: Machine + Drop, W: Said<T::Call, T::Reply>>(
    turns: &TurnTable<T, T::Call, T::Reply, T::About>,
    seat: &mut TurnSeat<T, T::Call, T::Reply, T::About>,
    call: &Snapshot<T::Call>,
    reply: &T::Reply,
)
    requires said { W.entry ≡ Some (call.now.value, reply.now) }
    requires table { (turns.now.table_id.words ≡ 1) × (seat.old.table_id ≡ turns.now.table_id) }
    requires turn { ServingAt (InSlot T.stands T.about) turns.now.key (seat.old.me.0.whole ++ (call.now.value, reply.now) ∷ []) seat.old.me }
    ensures table { seat.new.table_id ≡ seat.old.table_id }
    ensures gave { Gave (Some (call.now.value, reply.now)) seat.old.me seat.new.me }
{
    let _ = call;
    let _ = reply;
    free::<T, W>(turns, seat);
}
