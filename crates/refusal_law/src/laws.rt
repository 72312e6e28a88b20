ghost use Rattle.std.specs.Prelude.{◌≡◌, ◌≤◌, ◌^◌, ℕ, List, ◌++◌, length};
ghost use Rattle.chunk_wire.specs.declared.message.Message.{Message};
ghost use Rattle.client_law.specs.Room.{HaveRoom};
ghost use Rattle.client_owed.specs.declared.types.Asked.{Asked};
ghost use Rattle.client_owed.specs.declared.types.Gave.{Gave};
ghost use Rattle.command_dialog.specs.declared.types.Ask.{Ask};
ghost use Rattle.command_dialog.specs.declared.types.Grant.{Grant};
ghost use Rattle.command_dialog.specs.declared.types.Grant.TheVariants.{Place};
ghost use Rattle.refusal_law.specs.Refusals.{AreGranted, AreOpened, Begins, ClientWants, HaveTalked, IsRefusal, IsWant, asking_of};
ghost use Rattle.relay_session.specs.Decided.{IsDecided};
ghost use Rattle.relay_session.specs.Session.{session};
ghost use Rattle.relay_session.specs.declared.end.End.{End};
ghost use Rattle.rtmp_client.specs.Feeding.{Decides};
ghost use Rattle.rtmp_client.specs.declared.end.ClientEnd.{ClientEnd};
ghost use Rattle.session_owed.specs.Talk.{Own, makes};
ghost use Rattle.session_owed.specs.Talks.{entries_of};

use client_law::session_readable_law;
use command_dialog::laws::the_least_free_id_is_given;

/// Shows that no byte of those that a client owes ends the session that reads them.
pub fn a_session_is_ended_by_no_byte()
    ensures { (k : Asked) (who window max n : ℕ) (desk : Ask → Grant) (x y more : List ℕ) (ms ns : List (ℕ × Message)) (T : List Gave) (C : List Own) (e : End)
        → (h : HaveTalked k (session who window desk) max x y ms ns T C) → Begins more h.rest → length (x ++ more) ≤ 2 ^ 61
        → IsDecided who window desk ms C max (x ++ more) n e → IsWant e }
{}

/// Shows that no byte of those that a session owes ends the client that reads them, except the last of an
/// error by which it is refused. The condition is that each item that the session was sent has room in a
/// message.
pub fn a_client_is_ended_by_a_refusal_alone()
    ensures { (k : Asked) (who window max n : ℕ) (desk : Ask → Grant) (x y more : List ℕ) (ms ns : List (ℕ × Message)) (T : List Gave) (C : List Own)
        (e : ClientEnd) → (h : HaveTalked k (session who window desk) max x y ms ns T C) → HaveRoom max C → Begins more h.left → length (y ++ more) ≤ 2 ^ 61
        → Decides max ns (y ++ more) n e → IsRefusal e }
{
    session_readable_law();
    the_least_free_id_is_given();
}

/// Shows that a session begins the publish or play that a client asks for, if its desk grants it, by the
/// first of the calls that messages make, if it makes one. It begins nothing else.
pub fn a_session_begins_once()
    ensures { (k : Asked) (who window max place : ℕ) (desk : Ask → Grant) (x y : List ℕ) (ms ns : List (ℕ × Message)) (T : List Gave) (C : List Own)
        → (h : HaveTalked k (session who window desk) max x y ms ns T C) → HaveRoom max C → desk (asking_of k) ≡ Place place
        → AreOpened k.wish (makes C ++ entries_of h.kept) }
{
    session_readable_law();
    the_least_free_id_is_given();
}

/// Shows the same for a client that is granted: no byte of those that a session owes ends the client that
/// reads them. The condition is that the calls by which a publish or play would begin have begun it.
pub fn a_client_that_is_granted_is_ended_by_no_byte()
    ensures { (k : Asked) (who window max n place : ℕ) (desk : Ask → Grant) (x y more : List ℕ) (ms ns : List (ℕ × Message)) (T : List Gave)
        (C : List Own) (e : ClientEnd) → (h : HaveTalked k (session who window desk) max x y ms ns T C) → HaveRoom max C
        → desk (asking_of k) ≡ Place place → AreGranted C → Begins more h.left → length (y ++ more) ≤ 2 ^ 61 → Decides max ns (y ++ more) n e
        → ClientWants e }
{
    session_readable_law();
    the_least_free_id_is_given();
}
