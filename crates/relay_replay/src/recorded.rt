ghost use Rattle.std.specs.Prelude.{Bool, ℕ};
ghost use Rattle.relay_script.specs.declared.replay.ReplayLine.{ReplayLine};
ghost use Rattle.relay_replay.specs.Cast.{CastState};
ghost use Rattle.relay_replay.specs.Recorded.{AreRecorded, RecordedIn};
ghost use Rattle.relay_replay.specs.Scenes.{Does, IsOpen, SceneState, SettledIn, start};

/// The bytes in each recorder's file are the bytes that were sent to it. With the pending bytes they are
/// the text in its form of the items that its Takes were sent. It holds before the first line, after each
/// line, after turns of a session until it is idle, and of the printed text.
pub fn what_was_recorded_is_the_text_of_what_was_taken()
    ensures start { AreRecorded start }
    ensures line { (line : ReplayLine) (s t : SceneState) → Does line s t → AreRecorded s → AreRecorded t }
    ensures settled { (done : Bool) (most n : ℕ) (s t : SceneState) → SettledIn done most n s t → AreRecorded s → AreRecorded t }
    ensures printed { (s : SceneState) (c : CastState) → IsOpen s.cast s c → AreRecorded s → RecordedIn c }
{}
