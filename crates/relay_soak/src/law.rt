ghost use Rattle.std.specs.Prelude.{List, ℕ};
ghost use Rattle.relay_replay.specs.Served.{IsServedIn};
ghost use Rattle.relay_soak.specs.Runs.{Printed};

/// The bytes that each session of a soak was sent begin the bytes that it owes. It owes them for the bytes
/// that it was fed and its calls with their replies.
pub fn what_was_sent_begins_what_is_owed()
    ensures { (n : ℕ) (text : List ℕ) (p : Printed n text) → IsServedIn p.state p.summary.cast }
{}
