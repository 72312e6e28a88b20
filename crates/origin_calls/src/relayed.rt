ghost use Rattle.std.specs.Prelude.{◌≡◌, ◌<◌, ℕ, Bool, true, List, Some};
ghost use Rattle.std.specs.List.{Contains, slice_get};
ghost use Rattle.av_unit.specs.Media.{Media};
ghost use Rattle.av_unit.specs.declared.item.Item.{Item};
ghost use Rattle.av_unit.specs.declared.item.Item.TheVariants.{Unit as AUnit};
ghost use Rattle.av_unit.specs.declared.unit.Kind.TheVariants.{Inter};
ghost use Rattle.stream_model.specs.declared.calls.Call.TheVariants.{Push};
ghost use Rattle.stream_model.specs.declared.calls.StreamLimits.{StreamLimits};
ghost use Rattle.stream_model.specs.History.{History, items_of};
ghost use Rattle.stream_model.specs.Known.{IsLawful};
ghost use Rattle.stream_model.specs.Spell.{sent, spell};
ghost use Rattle.stream_model.specs.Take.{at_kind};
ghost use Rattle.client_owed.specs.declared.types.Gift.{Gift};
ghost use Rattle.origin_calls.specs.Calls.{edge_calls};
ghost use Rattle.origin_calls.specs.Origin.{Hears, IsMadeFor, all_told, numbered_calls, plain};
ghost use Rattle.origin_calls.specs.Relayed.{AreGranted, ComesFrom, HasItsChain, Serves, calls_by, items_for};

/// Shows that the calls of an edge with the numbers of its origin's items are the calls of an edge that was
/// told these items. Their Pushes have strictly rising numbers.
pub fn numbers_law()
    ensures calls { (live : Bool) (ps : List (ℕ × Item)) → plain (numbered_calls live ps) ≡ edge_calls live (all_told ps) }
    ensures order { (far : StreamLimits) (origin : History) (player m n o p : ℕ) (u v : Media) → IsLawful far origin → m < n
        → IsMadeFor origin player m (Push u) o → IsMadeFor origin player n (Push v) p → o < p }
{}

/// Shows that lawful after lawful is lawful. An edge serves a place at which nobody else publishes, and its
/// client was told the items that a player of a lawful stream was sent, or the first of them.
///
/// Each of the edge's calls is granted, and the items published here are those of its calls. Each unit of
/// them is one that the player there was sent; later units have higher numbers there (`numbers_law`). The
/// players here are sent published items with rising numbers. So they are sent those of the origin in its
/// order, each once.
///
/// An inter frame that a player here is sent has its chain. Each frame from the last keyframe before it there
/// was sent to this player too, before it.
pub fn relayed_law()
    ensures items { (who : ℕ) (gs : List Gift) (limits : StreamLimits) (past : History) → Serves who gs limits past
        → items_of past ≡ items_for (calls_by who past) }
    ensures granted { (who : ℕ) (gs : List Gift) (limits : StreamLimits) (past : History) → Serves who gs limits past → AreGranted who past }
    ensures units { (who : ℕ) (gs : List Gift) (limits far : StreamLimits) (past origin : History) (player : ℕ) → Serves who gs limits past
        → Hears gs far origin player → (n : ℕ) (v : Media) → slice_get (items_of past) n ≡ Some (AUnit v) → (from : ℕ) × ComesFrom origin player n v from }
    ensures inters { (who : ℕ) (gs : List Gift) (limits far : StreamLimits) (past origin : History) (player : ℕ) → Serves who gs limits past
        → Hears gs far origin player → (place n : ℕ) → Contains (sent (spell past place)) n → at_kind Inter (slice_get (items_of past) n) ≡ true
        → HasItsChain origin player past place n }
{}
