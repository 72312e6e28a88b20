ghost use Rattle.std.specs.Prelude.{◌≡◌, ℕ, ◌<◌, ◌≤◌, ◌+◌, ◌*◌, true, List, ◌++◌, length, Some};
ghost use Rattle.std.specs.List.{All};
ghost use Rattle.stream_model.specs.declared.calls.StreamLimits.{StreamLimits};
ghost use Rattle.av_unit.specs.declared.head.Want.{Want};
ghost use Rattle.stream_model.specs.declared.calls.Shape.{Shape};
ghost use Rattle.stream_model.specs.declared.calls.Entry.{Entry};
ghost use Rattle.stream_model.specs.declared.calls.Call.TheVariants.{Take};
ghost use Rattle.stream_model.specs.History.{History, items_of, holder};
ghost use Rattle.stream_model.specs.Spell.{spell, sent};
ghost use Rattle.stream_model.specs.Answer.{reply};
ghost use Rattle.stream_model.specs.Shape.{IsShapeLawful, IsLegalAt};
ghost use Rattle.stream_model.specs.Known.{StreamKnown, IsLawful};
ghost use Rattle.stream_model.specs.Legal.{Legal};
ghost use Rattle.stream_model.specs.Pool.{IsPoolLawful, slots_of, slot_at, slot_for, reply_at, cleared};
ghost use Rattle.stream_law.specs.HasTaken.{HasTaken, SentOfItsName, joins};

/// Each slot of a pool is a stream: it has the pool's limits. Each of its calls was answered by the rules of
/// a stream after the slot's calls before it. Among them are the Begin and the End of each name that it took.
/// So each law of a stream holds for each slot, the viewer's law too.
pub fn slots_law()
    ensures slots { (limits : StreamLimits) (n : ℕ) (past : History) → IsPoolLawful limits n past → length (slots_of limits n past) ≡ n }
    ensures limits { (limits : StreamLimits) (n : ℕ) (past : History) → IsPoolLawful limits n past → (i : ℕ) → i < n
        → (slot_at (slots_of limits n past) i).stream.limits ≡ limits }
    ensures rules { (limits : StreamLimits) (n : ℕ) (past : History) → IsPoolLawful limits n past → (i : ℕ) → i < n
        → IsLawful limits (slot_at (slots_of limits n past) i).stream.past }
    ensures viewers { (limits : StreamLimits) (n : ℕ) (past : History) → IsPoolLawful limits n past → (i : ℕ) → i < n
        → (place : ℕ) → Legal limits (slot_at (slots_of limits n past) i).stream.past place }
{}

/// A slot that has a name took it while nobody published or played there. Since then all callers that asked
/// for a name there asked for this one. No two slots have the same name.
pub fn names_law()
    ensures taken { (limits : StreamLimits) (n : ℕ) (past : History) → IsPoolLawful limits n past → (i : ℕ) → i < n → (name : List ℕ)
        → (slot_at (slots_of limits n past) i).name ≡ Some name → HasTaken name (slot_at (slots_of limits n past) i).stream }
    ensures one { (limits : StreamLimits) (n : ℕ) (past : History) → IsPoolLawful limits n past → (i j : ℕ) → i < n → j < n → (name : List ℕ)
        → (slot_at (slots_of limits n past) i).name ≡ Some name → (slot_at (slots_of limits n past) j).name ≡ Some name → i ≡ j }
{}

/// If a player joined since a slot took its name, the items that it is sent were published since then. Their
/// numbers are at least the number of items that the slot had with the markers of the name.
pub fn since_law()
    ensures { (older : StreamKnown) (newer : History) → IsLawful older.limits (newer ++ (cleared older).past) → (place : ℕ) → joins newer place ≡ true
        → All (λ n. length (items_of (cleared older).past) ≤ n) (sent (spell (newer ++ (cleared older).past) place)) }
{}

/// A player is sent no item of another name. At a slot that has a name, the holder of a place was sent only
/// items published there since the slot took that name. The calls that published them asked for that name or
/// found their caller there.
pub fn own_name_law()
    ensures { (limits : StreamLimits) (n : ℕ) (past : History) → IsPoolLawful limits n past → (i : ℕ) → i < n → (name : List ℕ)
        → (slot_at (slots_of limits n past) i).name ≡ Some name
        → (place who : ℕ) → holder (slot_at (slots_of limits n past) i).stream.past place ≡ Some who
        → SentOfItsName name (slot_at (slots_of limits n past) i).stream place }
{}

/// The same holds for a pool as for a stream. The answer to a player's Take depends on three things alone.
/// These are the items published at its slot, the holder of the place there, and that player's own answers
/// since its Join.
pub fn takes_alone_at_pools()
    ensures { (limits : StreamLimits) (n : ℕ) (past : History) → IsPoolLawful limits n past
        → (entry : Entry) (i player : ℕ) (want : Want) (other : History) → entry.call ≡ Take player want
        → slot_for (slots_of limits n past) entry.who entry.call ≡ Some i
        → items_of (slot_at (slots_of limits n past) i).stream.past ≡ items_of other
        → spell (slot_at (slots_of limits n past) i).stream.past player ≡ spell other player
        → holder (slot_at (slots_of limits n past) i).stream.past player ≡ holder other player
        → reply_at (slots_of limits n past) past entry ≡ reply limits other entry }
{}

/// The viewer's law of a place, whether it has a stream or a pool: the items that each player was sent at a
/// slot keep it. A stream is its own one slot.
pub fn tables_law()
    ensures { (s : Shape) (past : History) → IsShapeLawful s past → (slot player : ℕ) → IsLegalAt s past slot player }
{}

/// A call at a pool appends at most three items to a slot.
pub fn three_items()
    ensures { (limits : StreamLimits) (n : ℕ) (past : History) → IsPoolLawful limits n past → (i : ℕ) → i < n
        → length (items_of (slot_at (slots_of limits n past) i).stream.past) ≤ 3 * length past }
{}
