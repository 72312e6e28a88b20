ghost use Rattle.std.specs.Prelude.{◌≡◌, ℕ, false, List};
ghost use Rattle.session_owed.specs.Talk.{Own};
ghost use Rattle.client_owed.specs.declared.types.Gift.{Gift};
ghost use Rattle.relay_session.specs.declared.seat_answers.Active.TheVariants.{Nothing};
ghost use Rattle.origin_calls.specs.Calls.{edge_calls, entries, live_after};
ghost use Rattle.origin_pull.specs.Keeping.{AllGranted, active_if, granted_by, made};

/// Shows that an edge publishes exactly if its calls leave a broadcast live. The conditions are that its
/// calls are all those for the gifts that it was told, and were granted. So when it is closed, End is its
/// last call if a broadcast is live, and else it makes none.
pub fn granted_law()
    ensures { (who : ℕ) (gs : List Gift) (C : List Own) → made C ≡ entries who (edge_calls false gs) → AllGranted C
        → granted_by Nothing C ≡ active_if (live_after false gs) }
{}
