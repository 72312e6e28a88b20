ghost use Rattle.std.specs.Prelude.{◌≡◌, Bool, ℕ, true};
ghost use Rattle.relay_script.specs.declared.replay.ReplayLine.{ReplayLine};
ghost use Rattle.relay_replay.specs.Cast.{CastState};
ghost use Rattle.relay_replay.specs.Scenes.{Does, IsOpen, SceneState, SettledIn, stand_of, start};
ghost use Rattle.relay_replay.specs.Served.{AreServed, IsServedIn};
ghost use Rattle.relay_replay.specs.Stand.{allows};

/// The bytes that each session was sent begin the bytes that it owes for the bytes that it was fed and its
/// calls. The bytes that each player over HTTP was sent are those that it is owed. An edge's calls are
/// those of the news that its client was told. It holds before the first line, after each line that may
/// stand in its place, after turns of a session until it is idle, and of the printed text.
pub fn what_was_sent_begins_what_is_owed()
    ensures start { AreServed start }
    ensures line { (line : ReplayLine) (s t : SceneState) → allows line (stand_of s) ≡ true → Does line s t → AreServed s → AreServed t }
    ensures settled { (done : Bool) (most n : ℕ) (s t : SceneState) → SettledIn done most n s t → AreServed s → AreServed t }
    ensures printed { (s : SceneState) (c : CastState) → IsOpen s.cast s c → AreServed s → IsServedIn s c }
{}
