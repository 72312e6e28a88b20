ghost use Rattle.std.specs.Prelude.{◌≡◌, ◌≤◌, List, Some, ℕ};
ghost use Rattle.relay_base.specs.declared.limits.Status.{Status};
ghost use Rattle.file_commands.specs.Outcome.{Seen};
ghost use Rattle.flv_tags.specs.declared.tag.Tag.{Tag};
ghost use Rattle.loop_command.specs.Films.{most_bytes};
ghost use Rattle.loop_command.specs.Outcome.{Outcome};
ghost use Rattle.loop_law.specs.Ends.{ComesTo, Coming, SameEnd, SameOutput, WasDecided};

/// Two runs of one film, of no more bytes than may be read, come to the same: both have come back with the
/// same text, or neither has, and the text that came is the same. If the player missed items of the one it
/// did of the other.
pub fn two_runs_of_a_film_come_to_the_same()
    ensures { (tags : List Tag) (bytes : ℕ) (back back' : Coming) (text text' : List ℕ) → bytes ≤ most_bytes → ComesTo tags bytes back text
        → ComesTo tags bytes back' text' → SameEnd back text back' text' }
{}

/// Take two commands on one film, neither of which was ended by want of memory or by its source or sink.
/// They end with the same code and write the same text. The film comes back by both, with the same text, by
/// none, or it is refused by both. If it is refused the place is free.
pub fn two_commands_on_a_film_write_the_same()
    ensures { (film : List ℕ) (old new old' new' : Seen) (status status' : Status) → old.left ≡ Some film → old'.left ≡ Some film
        → Outcome old new status → Outcome old' new' status' → WasDecided status → WasDecided status' → SameOutput old new status old' new' status' }
{}
