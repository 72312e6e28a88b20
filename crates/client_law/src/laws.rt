ghost use Rattle.std.specs.Prelude.{◌≡◌, ◌≤◌, ℕ, List, [], ◌∷◌, ◌++◌};
ghost use Rattle.chunk_wire.specs.declared.message.Message.{Message};
ghost use Rattle.client_owed.specs.declared.types.Asked.{Asked};
ghost use Rattle.client_owed.specs.declared.types.Gave.{Gave};
ghost use Rattle.client_owed.specs.Owed.{AreGiven, id_of, owed, phase_of};
ghost use Rattle.client_owed.specs.declared.types.Wish.TheVariants.{Pull, Push};
ghost use Rattle.command_dialog.specs.declared.types.Ask.{Ask};
ghost use Rattle.command_dialog.specs.declared.types.Grant.{Grant};
ghost use Rattle.av_unit.specs.declared.item.Item.{Item};
ghost use Rattle.command_dialog.specs.Dialog.{shown};
ghost use Rattle.client_law.specs.Pull.{HaveHeard, HavePlayed, IsTold, gift_of, gifts_in};
ghost use Rattle.relay_session.specs.Session.{session};
ghost use Rattle.session_owed.specs.Published.{published};
ghost use Rattle.session_owed.specs.Talk.{Own};
ghost use Rattle.client_law.specs.Laws.{HaveBegun, HaveCome, HaveRead, HaveSent, IsPublished};
ghost use Rattle.client_law.specs.Room.{HaveRoom};
ghost use Rattle.chunk_law.specs.ReadBack.{AreReadable};
ghost use Rattle.session_owed.specs.Owed as session_owed;
ghost use Rattle.client_law.specs.Loud.{Rise, asked_by, loud, sents, units};

use command_dialog::laws::{what_is_said_can_be_written, what_is_said_is_on_a_stream};

/// Shows the order of the messages that a client owes, apart from control messages. They are the commands
/// that its phase has called for, and then the tags and the finish that it was given.
pub fn order_law()
    ensures { (k : Asked) (max n : ℕ) (ms : List (ℕ × Message)) (T : List Gave) → Rise 0 n ms → AreGiven k max n ms T
        → loud (owed k n ms T) ≡ asked_by k (phase_of k ms) ++ sents (id_of (phase_of k ms)) T }
{}

/// Shows that the session of a client that publishes publishes the tags that the client was given: their
/// units, in order.
pub fn push_law()
    ensures { (k : Asked) (who window max n o : ℕ) (desk : Ask → Grant) (ns ms : List (ℕ × Message)) (g : Gave) (T : List Gave) (C : List Own)
        → k.wish ≡ Push → HaveRead k (session who window desk) max n o ns ms (g ∷ T) C → published (session who window desk) ms C ≡ units (g ∷ T) }
{}

/// Shows the same over bytes: the session publishes the units of the tags that the client was given. The
/// conditions are that all bytes that the client owes have come to the session, and that the client has read
/// the first of those that the session owes.
pub fn push_bytes_law()
    ensures { (k : Asked) (who window max : ℕ) (desk : Ask → Grant) (x y : List ℕ) (ms ns : List (ℕ × Message)) (g : Gave) (T : List Gave) (C : List Own)
        → k.wish ≡ Push → HaveSent k (session who window desk) max x y ms ns (g ∷ T) C → published (session who window desk) ms C ≡ units (g ∷ T) }
{}

/// Shows the same of a push in progress. If the session has heard the first of the messages that the client
/// owes, what it publishes begins the units of the tags that the client was given. If the client was given
/// nothing, nothing is published.
pub fn push_so_far_law()
    ensures { (k : Asked) (who window max n o : ℕ) (desk : Ask → Grant) (ns ms : List (ℕ × Message)) (T : List Gave) (C : List Own)
        → k.wish ≡ Push → HaveBegun k (session who window desk) max n o ns ms T C → IsPublished (session who window desk) ms T C }
{}

/// Shows the same over bytes, of which the first of each have come to the other.
pub fn push_bytes_so_far_law()
    ensures { (k : Asked) (who window max : ℕ) (desk : Ask → Grant) (x y : List ℕ) (ms ns : List (ℕ × Message)) (T : List Gave) (C : List Own)
        → k.wish ≡ Push → HaveCome k (session who window desk) max x y ms ns T C → IsPublished (session who window desk) ms T C }
{}

/// Shows that the messages by which a player is shown an item tell a client that plays this item, and nothing
/// else.
pub fn item_law()
    ensures { (id : ℕ) (i : Item) → gifts_in id (shown id i) ≡ gift_of i ∷ [] }
{}

/// Shows that the gifts told to a client that plays begin the items that its session was sent, in order: none
/// is told twice, left out or changed.
pub fn pull_law()
    ensures { (k : Asked) (who window max n o : ℕ) (desk : Ask → Grant) (ns ms : List (ℕ × Message)) (T : List Gave) (C : List Own)
        → k.wish ≡ Pull → HaveHeard k (session who window desk) max n o ns ms T C → IsTold k ns C }
{}

/// Shows the same over bytes. If each has read the first of the bytes that the other owes, the client was
/// told the first of the items that the session was sent.
pub fn pull_bytes_law()
    ensures { (k : Asked) (who window max : ℕ) (desk : Ask → Grant) (x y : List ℕ) (ms ns : List (ℕ × Message)) (T : List Gave) (C : List Own)
        → k.wish ≡ Pull → HavePlayed k (session who window desk) max x y ms ns T C → IsTold k ns C }
{}

/// Shows that the messages that a session owes can be written, and read by a reader that takes messages of up
/// to `max` bytes. The condition is that each item that the session was sent has room in one message.
pub fn session_readable_law()
    ensures { (who window max n : ℕ) (desk : Ask → Grant) (ms : List (ℕ × Message)) (C : List Own) → 4096 ≤ max → max ≤ 4194304 → HaveRoom max C
        → AreReadable max (session_owed.owed (session who window desk) n ms C) }
{
    what_is_said_can_be_written();
    what_is_said_is_on_a_stream();
}
