ghost use Rattle.std.specs.Prelude.{◌≡◌, ◌++◌, ℕ, List, length};
ghost use Rattle.command_dialog.specs.declared.types.Ask.{Ask};
ghost use Rattle.command_dialog.specs.declared.types.Grant.{Grant};
ghost use Rattle.relay_session.specs.Decided.{IsDecided};
ghost use Rattle.relay_session.specs.Feeding.{IsStopped};
ghost use Rattle.relay_session.specs.Keeping.{IsOver};
ghost use Rattle.relay_session.specs.Turns.{gone_of};
ghost use Rattle.relay_session.specs.declared.core_fields.Core.{Core};
ghost use Rattle.relay_session.specs.declared.end.End.{End};

/// Shows that a byte that ends a session decides it in the state in which the session stood. The messages of
/// the bytes before it are those that it had read. The state in which the last message was refused is the one
/// in which these and its calls had left its dialogue.
pub fn decided_law()
    ensures { (desk : Ask → Grant) (old stopped left : Core) (input : List ℕ) (e : End) → IsStopped old input e stopped → gone_of left ≡ gone_of stopped
        → (over : IsOver desk e left) → IsDecided left.who left.window desk over.ms left.calls left.reader.max (old.x ++ input) (length left.x) e }
{}
