ghost use Rattle.std.specs.Prelude.{◌≡◌, List, ℕ, None};
ghost use Rattle.relay_program.specs.Replay.{Printed, given_in, outside_line};
ghost use Rattle.relay_replay.specs.Recorded.{RecordedIn};
ghost use Rattle.relay_replay.specs.Scenes.{desk_of};
ghost use Rattle.relay_replay.specs.Served.{IsServedIn};
ghost use Rattle.relay_replay.specs.Whole.{RunOf};

/// The output of [`replay`](crate::replay) for a script within the grammar. The bytes that a session was
/// sent begin the bytes that it owes, for the bytes that it was fed and its calls with their replies. The
/// bytes in a recorder's file are the bytes that were sent to it. With the pending bytes they are the text
/// in its form of the items that its Takes were sent. For a script that opens sessions alone it says all of
/// it together (`whole`). That goes from the bytes of a session's `in` lines to the units that are its
/// pushes in the streams' histories, and the items of them that each player was sent.
pub fn what_a_replay_prints()
    ensures sent { (script text : List ℕ) (p : Printed script text) → outside_line script ≡ None → IsServedIn p.state p.prints.cast }
    ensures whole { (script text : List ℕ) (p : Printed script text) → outside_line script ≡ None
        → RunOf (desk_of p.state) (given_in script) p.prints.cast }
    ensures files { (script text : List ℕ) (p : Printed script text) → RecordedIn p.prints.cast }
{}
