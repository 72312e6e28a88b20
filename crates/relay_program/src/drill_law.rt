ghost use Rattle.std.specs.Prelude.{◌≡◌, List, ℕ, None};
ghost use Rattle.relay_program.specs.Drill.{outside_line, DrillKept};

use stream_law::tables_law;

/// The outcome of a [`drill`](crate::drill) of a script within the grammar. Each call at its stream or its
/// pool was answered by the rules, after the calls before it. The items that each player was sent at a slot
/// keep the viewer's law.
pub fn what_a_drill_answers()
    ensures { (script : List ℕ) → outside_line script ≡ None → DrillKept script }
{
    tables_law();
}
