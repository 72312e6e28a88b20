ghost use Rattle.std.specs.Prelude.{◌≡◌, [], ◌∷◌, ◌++◌, List, true, false};
ghost use Rattle.av_unit.specs.Examples.{avc};
ghost use Rattle.av_unit.specs.declared.unit.Kind.TheVariants.{Inter, Key};
ghost use Rattle.client_owed.specs.declared.types.Gift.{Gift};
ghost use Rattle.client_owed.specs.declared.types.Gift.TheVariants.{Published, Unpublished};
ghost use Rattle.stream_model.specs.declared.calls.Call.TheVariants.{Begin, End};
ghost use Rattle.origin_calls.specs.Broadcasts.{AreBroadcasts, units_for, units_of};
ghost use Rattle.origin_calls.specs.Calls.{edge_calls};
ghost use Rattle.origin_calls.specs.Examples.{film, film_units, push, spared, tag};

/// Shows that an edge's calls are broadcasts, whatever it is told. Each broadcast begins when none is live.
/// Only a live broadcast is pushed to and ended. The units pushed are those of the tags that it is told of,
/// in order.
pub fn broadcasts_law()
    ensures broadcasts { (gs : List Gift) → AreBroadcasts false (edge_calls false gs) }
    ensures units { (gs : List Gift) → units_of (edge_calls false gs) ≡ units_for gs }
{}

/// Shows worked examples of an edge's calls, on the definition itself.
pub fn worked_examples()
    // The calls for a whole broadcast, as a player is told of it, are that broadcast.
    ensures whole { edge_calls false (Published ∷ film ++ Unpublished ∷ []) ≡ Begin ∷ film_units ++ End ∷ [] }

    // If nothing was told of its beginning, the first unit begins it.
    ensures late { edge_calls false (tag 9 0 (avc 1 1) ∷ tag 9 40 (avc 2 1) ∷ []) ≡ Begin ∷ push Key 0 (avc 1 1) ∷ push Inter 40 (avc 2 1) ∷ [] }

    // A broadcast that begins ends the one before.
    ensures again { edge_calls false (Published ∷ tag 9 0 (avc 1 1) ∷ Published ∷ []) ≡ Begin ∷ push Key 0 (avc 1 1) ∷ End ∷ Begin ∷ [] }

    // If none is live, none ends.
    ensures idle { edge_calls false (Unpublished ∷ Unpublished ∷ []) ≡ [] }

    // A unit after the end begins another.
    ensures after { edge_calls false (Published ∷ Unpublished ∷ tag 9 0 (avc 1 1) ∷ []) ≡ Begin ∷ End ∷ Begin ∷ push Key 0 (avc 1 1) ∷ [] }

    // A tag that is no unit begins nothing.
    ensures nothing { edge_calls false (tag 9 0 (avc 1 2) ∷ tag 8 0 [] ∷ []) ≡ [] }

    // No video is classed as disposable.
    ensures spared { edge_calls true (tag 9 40 spared ∷ []) ≡ push Inter 40 spared ∷ [] }
{}
