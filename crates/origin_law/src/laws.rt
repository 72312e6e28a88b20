ghost use Rattle.std.specs.Prelude.{◌≡◌, ℕ, true, List, Some};
ghost use Rattle.std.specs.List.{Contains, slice_get};
ghost use Rattle.av_unit.specs.Media.{Media};
ghost use Rattle.av_unit.specs.declared.item.Item.TheVariants.{Unit as AUnit};
ghost use Rattle.av_unit.specs.declared.unit.Kind.TheVariants.{Inter};
ghost use Rattle.chunk_wire.specs.declared.message.Message.{Message};
ghost use Rattle.command_dialog.specs.declared.types.Ask.{Ask};
ghost use Rattle.command_dialog.specs.declared.types.Grant.{Grant};
ghost use Rattle.stream_model.specs.declared.calls.StreamLimits.{StreamLimits};
ghost use Rattle.stream_model.specs.History.{History, items_of};
ghost use Rattle.stream_model.specs.Spell.{sent, spell};
ghost use Rattle.stream_model.specs.Take.{at_kind};
ghost use Rattle.session_owed.specs.Talk.{Own};
ghost use Rattle.client_owed.specs.Pulled.{pulled};
ghost use Rattle.client_owed.specs.declared.types.Asked.{Asked};
ghost use Rattle.client_owed.specs.declared.types.Gave.{Gave};
ghost use Rattle.client_owed.specs.declared.types.Wish.TheVariants.{Pull};
ghost use Rattle.relay_session.specs.Session.{session};
ghost use Rattle.client_law.specs.Pull.{HavePlayed};
ghost use Rattle.origin_calls.specs.Origin.{IsOrigin};
ghost use Rattle.origin_calls.specs.Relayed.{ComesFrom, HasItsChain, Serves};
ghost use Rattle.origin_law.specs.Played.{PlaysAt};

use client_law::pull_bytes_law;

/// Shows that lawful after lawful is lawful, over bytes. A session of the origin plays, and an edge's client
/// has read the first of the bytes that it owes. The edge serves a place at which nobody else publishes, with
/// the calls for the gifts that its client was told by these bytes.
///
/// Then each unit that is published there is one that the session was sent, and an inter frame that a player
/// there is sent has its chain. Each frame from the last keyframe before it at the origin was sent to this
/// player too.
pub fn relayed_bytes_law()
    ensures units { (k : Asked) (who window max edge : ℕ) (desk : Ask → Grant) (x y : List ℕ) (ms ns : List (ℕ × Message)) (T : List Gave) (C : List Own)
        (limits far : StreamLimits) (past origin : History) (player : ℕ) → k.wish ≡ Pull → HavePlayed k (session who window desk) max x y ms ns T C
        → IsOrigin far origin → PlaysAt origin player C → Serves edge (pulled k ns) limits past
        → (n : ℕ) (v : Media) → slice_get (items_of past) n ≡ Some (AUnit v) → (from : ℕ) × ComesFrom origin player n v from }
    ensures inters { (k : Asked) (who window max edge : ℕ) (desk : Ask → Grant) (x y : List ℕ) (ms ns : List (ℕ × Message)) (T : List Gave) (C : List Own)
        (limits far : StreamLimits) (past origin : History) (player : ℕ) → k.wish ≡ Pull → HavePlayed k (session who window desk) max x y ms ns T C
        → IsOrigin far origin → PlaysAt origin player C → Serves edge (pulled k ns) limits past
        → (place n : ℕ) → Contains (sent (spell past place)) n → at_kind Inter (slice_get (items_of past) n) ≡ true → HasItsChain origin player past place n }
{
    pull_bytes_law();
}
