ghost use Rattle.std.specs.Prelude.{Bool, None, Option};
ghost use Rattle.command_dialog.specs.declared.types.Ask.{Ask};
ghost use Rattle.command_dialog.specs.declared.types.Grant.{Grant};
ghost use Rattle.relay_outside.specs.MemLinks.{MemHears, MemLinkState, MemSays};
ghost use Rattle.stream_model.specs.declared.calls.Entry.{Entry};
ghost use Rattle.stream_registry.specs.Books.{SeenState, SoleState};
ghost use Rattle.relay_session.specs.SeatState.{SeatState};
ghost use Rattle.relay_session.specs.Turns.{EndedBy};
ghost use Rattle.relay_session.specs.declared.turn.Turn.{Turn};
ghost use Rattle.turn_law.specs.Twins.{Alike, Closes, HasRoom, IsPlain, Parting, SamePort, SameTurn, SoleAsks, SoleLife};

/// Shows that two turns on one thread are answered the same, if the sessions are alike and their links the
/// same. They leave sessions, links and histories alike, whatever else was free. The conditions are that
/// neither session ended because memory was refused, and that each turn left room in the histories.
pub fn a_turn_on_one_thread_is_a_function()
    ensures { (desk : Ask → Grant) (quit : Bool) (v v' w w' : SoleLife) (l m m' : MemLinkState) (a a' : Turn) → Alike desk v v'
        → EndedBy SoleAsks desk MemHears MemSays None quit v l a w m → EndedBy SoleAsks desk MemHears MemSays None quit v' l a' w' m'
        → IsPlain a w → IsPlain a' w' → SameTurn desk a w m a' w' m' }
{}

/// Shows that two sessions on one thread that ended alike are closed alike, if each history has room.
pub fn a_close_on_one_thread_is_a_function()
    ensures { (v v' : SoleLife) (port port' : SoleState) (kept kept' : Option Entry) (seat seat' : SeatState SeenState) → Parting v v' → Closes v port kept seat
        → Closes v' port' kept' seat' → HasRoom port → HasRoom port' → SamePort port port' }
{}
