ghost use Rattle.std.specs.Prelude.{◌≡◌, Bool, List, [], ℕ, true};
ghost use Rattle.command_dialog.specs.declared.types.Ask.{Ask};
ghost use Rattle.command_dialog.specs.declared.types.Grant.{Grant};
ghost use Rattle.relay_script.specs.declared.replay.ReplayLine.{ReplayLine};
ghost use Rattle.relay_replay.specs.Cast.{CastState};
ghost use Rattle.relay_replay.specs.Scenes.{Does, IsOpen, SceneState, SettledIn, desk_of, stand_of, start};
ghost use Rattle.relay_replay.specs.Stand.{allows};
ghost use Rattle.relay_replay.specs.Whole.{IsRun, RunOf, Runs, SessionsAnswered, given_more};

use relay_session::alone_law;

/// The outcome of a run on one thread that opens sessions alone, as one statement. The bytes of a session's
/// `in` lines are those that it was fed and those that wait. The units that their messages publish are its
/// pushes. Its calls are all that bear its number in the streams' histories, which have the calls of the
/// sessions and recorders alone. Each player's items in them keep the viewer's law. The bytes that were
/// sent begin the bytes that are owed, and a recording is the text of the items that its own Takes were
/// sent. Each push of a session was answered Pushed, each End Ended, and none of its Takes and Leaves
/// NotPlayer. Of a run with a player over HTTP or an edge it says nothing.
pub fn what_a_run_comes_to()
    ensures start { Runs (λ _. []) start }
    ensures line { (line : ReplayLine) (s t : SceneState) (given : ℕ → List ℕ) → allows line (stand_of s) ≡ true → Does line s t → Runs given s
        → Runs (given_more line given) t }
    ensures settled { (done : Bool) (most n : ℕ) (s t : SceneState) (given : ℕ → List ℕ) → SettledIn done most n s t → Runs given s → Runs given t }
    ensures printed { (s : SceneState) (c : CastState) (given : ℕ → List ℕ) → IsOpen s.cast s c → Runs given s → RunOf (desk_of s) given c }
    ensures answered { (desk : Ask → Grant) (given : ℕ → List ℕ) (c : CastState) → IsRun desk given c → SessionsAnswered c }
{
    alone_law();
}
