ghost use Rattle.std.specs.Prelude.{List};
ghost use Rattle.av_unit.specs.declared.item.Item.{Item};
ghost use Rattle.hls_command.specs.Laws.{AreSegments};
ghost use Rattle.hls_command.specs.Words.{Asked};

/// The files of a series that was empty are the segments of the items, one for each and in order, and as many have ended as the
/// playlist may name.
pub fn files_are_segments()
    ensures { (a : Asked) (past : List Item) → AreSegments a past }
{}
